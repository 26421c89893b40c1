// What a schedule's header says: who is there, how they are joined, what each of them keeps, and which of them are compromised.
use sp_base::{Limits, Listed, NodeId};
use sp_graph::Graph;
use sp_topology::LmsHeight;

/// What holds for a whole run: the format, 1 or 2, the seed of all keys, the height of the signature trees, the bounds of each node, the graph, and the nodes
/// that follow no rule.
#[derive(Debug, Drop)]
pub struct Scenario {
    pub format: u8,
    pub seed: [u8; 32],
    pub height: LmsHeight,
    pub limits: Limits,
    pub graph: Graph,
    /// The compromised nodes, ascending.
    pub bad: Listed<NodeId>,
    /// Whether the correct nodes start and stop by events, and are stopped at first. In format 2 alone.
    pub epochs: bool,
}
