// A graph: who is there, and how they are joined.
use sp_base::Listed;
use sp_topology::Edge;

/// Nodes 1 to `nodes`, and the links between them, ascending by their two ends. The place of an edge is its `EdgeId`.
#[derive(Debug, Drop)]
pub struct Graph {
    pub nodes: u8,
    pub edges: Listed<Edge>,
}
