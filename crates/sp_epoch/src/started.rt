// A start of a node: its boot, and the indexes that it may sign with.

/// What a start gives.
#[derive(Clone, Copy, Debug, PartialEq, Eq)]
pub struct Started {
    /// How often the node was started, with this start.
    pub boot: u64,
    /// The first index that it may sign with.
    pub index: u64,
    /// The index that it may not reach, until more are reserved.
    pub bound: u64,
}
