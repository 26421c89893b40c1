// Who is joined to whom, and by which edge.
ghost use Rattle.std.specs.Prelude.{◌≡◌, ◌<◌, IfErr, IfOk, IfSome, length, option_map, position};
ghost use Rattle.sp_topology.specs.Neighbours.{Ascend, joins, neighbours_from, other_end};
ghost use Rattle.sp_topology.specs.Ranges.{IsTopology};

use crate::{Edge, Topology, TopologyRefused};
use sp_base::{EdgeId, NodeId, push};
use std::alloc::Global;

impl Edge {
    /// Whether the edge joins the two, whichever comes first.
    pub fn joins(&self, a: NodeId, b: NodeId) -> bool
        ensures { result ≡ joins a.0 b.0 self.now }
    {
        self.low.0 == a.0 && self.high.0 == b.0 || self.low.0 == b.0 && self.high.0 == a.0
    }

    /// The end to which the edge leads from this node. None exactly where the node is no end of it.
    pub fn other_end(&self, node: NodeId) -> Option<NodeId>
        ensures { result ≡ other_end node.0 self.now }
    {
        if self.low.0 == node.0 {
            Some(self.high)
        } else if self.high.0 == node.0 {
            Some(self.low)
        } else {
            None
        }
    }
}

impl Topology {
    /// The neighbours of a node, ascending, each with the edge that leads there. A node that isn't there has none.
    /// Only want of memory refuses.
    pub fn neighbours(
        &self,
        alloc: Global,
        node: NodeId,
    ) -> Result<Vec<(NodeId, EdgeId)>, TopologyRefused>
        requires { IsTopology self.now }
        ensures neighbours { IfOk result (λ found. found.items ≡ neighbours_from node.0 0 self.now.edges) }
        ensures ascending { IfOk result (λ found. Ascend 0 found.items) }
        ensures memory { IfErr result (λ refused. refused ≡ TopologyRefused.Memory) }
    {
        let mut found = Vec::new(alloc);
        'edges: for (place, edge) in self.edges.as_slice().iter().enumerate() {
            if let Some(other) = edge.other_end(node) {
                push(&mut found, (other, EdgeId(place as u16)))?;
            }
        }
        Ok(found)
    }

    /// The edge that joins the two, whichever comes first. None exactly where no edge does.
    pub fn edge_of(&self, a: NodeId, b: NodeId) -> Option<EdgeId>
        requires { IsTopology self.now }
        ensures { result ≡ option_map (λ place. record { 0 = place }) (position (joins a.0 b.0) self.now.edges) }
    {
        match place_of(self.edges.as_slice(), a, b) {
            Some(place) => Some(EdgeId(place as u16)),
            None => None,
        }
    }
}

/// The place of the edge that joins the two.
fn place_of(edges: &[Edge], a: NodeId, b: NodeId) -> Option<usize>
    ensures place { result ≡ position (joins a.0 b.0) edges.now }
    ensures within { IfSome result (λ place. place < length edges.now) }
{
    edges.iter().position(|edge| edge.joins(a, b))
}
