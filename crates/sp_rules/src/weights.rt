// What a node answers to an update of a link's weight.

/// The greatest number of a node's own update that it takes from a neighbour. So its own next number keeps its range.
pub const MAX_OWN_HEARD: u64 = 1 << 62;

/// Whether an update of a weight is held, or why it isn't: the first that applies.
#[derive(Clone, Copy, Debug, PartialEq, Eq)]
pub enum Offer {
    /// The edge isn't in the topology or is withdrawn, or the node that says so is no end of it.
    Foreign,
    /// The weight is below the administrator's minimum of the edge.
    Low { min: u32 },
    /// The update that is held of this end has this number, and the new one is at most that.
    Old { held: u64 },
    New,
}
