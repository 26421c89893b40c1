// The ids of nodes, edges and flows, and the bounds that a node keeps.

/// The id of a node: 1 to the number of nodes.
#[derive(Clone, Copy, Debug, PartialEq, Eq, PartialOrd, Ord, Hash)]
pub struct NodeId(pub u8);

/// The id of an edge: its place among the edges of the topology, counted from 0.
#[derive(Clone, Copy, Debug, PartialEq, Eq, PartialOrd, Ord, Hash)]
pub struct EdgeId(pub u16);

/// A reliable flow: from its source to its destination.
#[derive(Clone, Copy, Debug, PartialEq, Eq, PartialOrd, Ord, Hash)]
pub struct Flow {
    pub src: NodeId,
    pub dst: NodeId,
}

/// How much a node keeps: messages of each reliable flow, and entries of each priority store.
#[derive(Clone, Copy, Debug, PartialEq, Eq)]
pub struct Limits {
    pub buffer: u16,
    pub store: u16,
}
