// A part of a graph whose nodes are cut in two.
use sp_base::NodeId;

/// The part of a node that edges lead into, or the part that they lead out of.
/// Of the two ends of a search the source has its `Out` alone, and the destination its `In` alone.
#[derive(Clone, Copy, Debug, PartialEq, Eq)]
pub enum Part {
    In(NodeId),
    Out(NodeId),
}
