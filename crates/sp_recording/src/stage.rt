// How far a recording was read, and how its reading ended.
use crate::{Closing, Line, Opening};
use sp_base::Listed;

/// What the good lines of a recording said so far.
#[derive(Debug, Drop)]
pub enum Stage {
    /// No line was read.
    Start,
    /// The first line was read, and the lines after it so far, which hold indexes below this bound.
    Lines(Opening, Listed<Line>, u64),
    /// The end line was read.
    End(Opening, Listed<Line>, Closing),
}

/// How the reading of a text ended.
#[derive(Clone, Copy, Debug, PartialEq, Eq)]
pub enum Ending {
    /// All lines are good, and the first line of a recording is among them.
    Whole,
    /// The number of the first bad line, or of the one after the last where no line was read.
    Form { line: u32 },
}

/// What was read of a text: what its good lines say, and how it ended.
#[derive(Debug, Drop)]
pub struct Reading {
    pub stage: Stage,
    pub ending: Ending,
}
