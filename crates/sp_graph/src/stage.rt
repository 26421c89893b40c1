// How far the text of a graph was read.
use crate::Graph;

/// What the good lines of a graph's text said so far. Each stage is named for the line that led to it.
#[derive(Debug, Drop)]
pub enum Stage {
    /// No line was read.
    Start,
    Version,
    /// The number of nodes was read, and the edges so far.
    Edges(Graph),
    /// The line `end` was read.
    End(Graph),
}
