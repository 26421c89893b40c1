// Which of a node's two kinds of reliable flows, and what a client asks of one on paths.
use sp_base::NodeId;
use sp_msg::Mask;

/// The two kinds of reliable flows at a node. Those of one kind know nothing of those of the other.
#[derive(Clone, Copy, Debug, PartialEq, Eq)]
pub enum FlowKind {
    /// Messages go to each neighbour.
    Plain,
    /// Messages go over the edges of a mask alone.
    Paths,
}

/// The number of a client's next message on paths, and the mask that stays. None where nothing waits: then a mask is chosen.
#[derive(Clone, Copy, Debug, PartialEq, Eq)]
pub struct KRoom {
    pub seq: u64,
    pub mask: Option<Mask>,
}

/// How many paths the last message to a node asked for.
#[derive(Clone, Copy, Debug, PartialEq, Eq)]
pub struct PathsTo {
    pub dst: NodeId,
    pub count: u8,
}

/// A reliable message of a client that goes over so many paths (1 to 8) that share no node.
#[derive(Clone, Copy, Debug)]
pub struct KSend<'a> {
    pub dst: NodeId,
    pub paths: u8,
    pub payload: &'a [u8],
}
