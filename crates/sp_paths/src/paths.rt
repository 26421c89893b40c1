// Disjoint paths and what proves that they are the cheapest.
use sp_base::{Listed, NodeId};

/// Disjoint paths, each as its nodes, the weights of all their edges together, and a potential for each part in the order of the parts.
#[derive(Debug, Drop)]
pub struct Paths {
    pub paths: Listed<Listed<NodeId>>,
    pub cost: u64,
    pub potentials: Listed<i64>,
}
