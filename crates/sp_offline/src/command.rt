// The offline commands.
use crate::Query;

/// A command that works offline.
#[derive(Clone, Copy, Debug, PartialEq, Eq)]
pub enum Offline {
    /// An administrator's draft becomes a signed topology.
    Topology,
    /// A graph gives the cheapest disjoint paths between two of its nodes.
    Paths(Query),
}
