// What is asked for by the command `paths`.
use sp_base::NodeId;

/// Two ends, and how many disjoint paths between them.
#[derive(Clone, Copy, Debug, PartialEq, Eq)]
pub struct Query {
    pub from: NodeId,
    pub to: NodeId,
    pub paths: u8,
}
