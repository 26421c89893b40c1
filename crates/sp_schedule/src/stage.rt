// How far a schedule was read, and how its reading ended.
use crate::{Kind, LmsHeight, Scenario, Timeline};
use sp_base::Limits;

/// What the good lines of a schedule said so far. Each stage is named for the line that led to it.
#[derive(Debug, Drop)]
pub enum Stage {
    /// No line was read.
    Start,
    /// The format, 1 or 2.
    Version {
        format: u8,
    },
    Seed {
        format: u8,
        seed: [u8; 32],
    },
    Height {
        format: u8,
        seed: [u8; 32],
        height: LmsHeight,
    },
    Bounds {
        format: u8,
        seed: [u8; 32],
        height: LmsHeight,
        limits: Limits,
    },
    /// The number of nodes was read, and the edges so far.
    Edges(Scenario),
    /// A compromised node was read: no edge may come after it.
    Bads(Scenario),
    /// The line `epochs` was read: only `begin` may come after it.
    Epochs(Scenario),
    /// The header was read whole, and the events so far.
    Events(Scenario, Timeline),
    /// The line `end` was read.
    End(Scenario, Timeline),
}

/// How the reading of a text ended.
#[derive(Clone, Copy, Debug, PartialEq, Eq)]
pub enum Ending {
    /// All lines are good, and the last is `end`.
    Whole,
    /// The first bad line, counted from 1, and why it is refused.
    Refused { line: u32, kind: Kind },
}

/// What was read of a text: what its good lines say, and how it ended.
#[derive(Debug, Drop)]
pub struct Reading {
    pub stage: Stage,
    pub ending: Ending,
}
