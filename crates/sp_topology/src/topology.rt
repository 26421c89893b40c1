// What a topology says.
use sp_base::{Listed, NodeId};

/// The height of a node's signature trees (RFC 8554, section 5.1).
#[derive(Clone, Copy, Debug, PartialEq, Eq)]
pub enum LmsHeight {
    Five,
    Ten,
}

/// A node and its public key of two levels: its HSS key (RFC 8554, section 6.1) of 60 bytes.
#[derive(Clone, Copy, Debug, PartialEq, Eq)]
pub struct NodeKey {
    pub id: NodeId,
    pub key: [u8; 60],
}

/// A link between two nodes, the lower one first.
#[derive(Clone, Copy, Debug, PartialEq, Eq)]
pub struct Edge {
    pub low: NodeId,
    pub high: NodeId,
    pub weight: u32,
}

/// Who is there and how they are joined: the nodes ascend by their ids, and the edges by their two ends.
/// The place of an edge is its `EdgeId`. Its weight is the least that a link may be given, and in format 2
/// 0 where the edge is withdrawn.
#[derive(Debug, Drop)]
pub struct Topology {
    /// The format of the document, and of every object, frame, graph and schedule under it.
    pub format: u8,
    pub version: u32,
    pub height: LmsHeight,
    pub nodes: Listed<NodeKey>,
    pub edges: Listed<Edge>,
}
