// What the priority part of a node knows of its neighbours from the start, and what it answers to a message.
use sp_base::{EdgeId, NodeId};

/// A neighbour, and the edge that joins it to this node.
#[derive(Clone, Copy, Debug, PartialEq, Eq)]
pub struct Neighbour {
    pub id: NodeId,
    pub edge: EdgeId,
}

/// What a node says of a priority message before it looks at the signature: the first that applies.
#[derive(Clone, Copy, Debug, PartialEq, Eq)]
pub enum PrioJudged {
    /// Its source or its destination isn't a node or is removed, or both are the same. A fault or an attack.
    BadEnd,
    /// Its expiry is before the node's time. Normal for a message that took long.
    Expired,
    /// The node sent it itself, or its source's window has its number or is past it. Normal where messages take several ways.
    Seen,
    /// None of these.
    New,
}
