// What a command line asks for.
use sp_base::NodeId;

/// A command with its values.
#[derive(Clone, Copy, Debug)]
pub enum CommandLine<'a> {
    Replay,
    Topology,
    Format,
    Verify,
    Paths(PathsQuery),
    /// `generate --seed N`: the schedule of this number, from 1.
    Generate { seed: u32 },
    /// `daemon --turns N`: so many turns, from 1.
    Daemon { turns: u32 },
    Ask(Ask<'a>),
}

/// `paths --from S --to D --paths K`: two different ends, and how many disjoint paths between them.
#[derive(Clone, Copy, Debug, PartialEq, Eq)]
pub struct PathsQuery {
    pub from: NodeId,
    pub to: NodeId,
    pub paths: u8,
}

/// `ask --port P --local L --turns N --request LINE`: the port of a daemon's clients, the port that asks, how many receives may wait for the
/// reply, and the request, of which nothing is judged here.
#[derive(Clone, Copy, Debug)]
pub struct Ask<'a> {
    pub port: u16,
    pub local: u16,
    pub turns: u32,
    pub request: &'a str,
}
