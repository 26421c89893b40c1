// The edges of a path as a mask, and whether a node sends along an edge of a mask.
ghost use Rattle.std.specs.Prelude.{◌≡◌, ◌≢◌, ◌<◌, ◌≤◌, ◌↔◌, IfSome, IsTrue, Some, length, position};
ghost use Rattle.sp_base.specs.declared.limits.TheConstants.{MAX_EDGES_2};
ghost use Rattle.sp_graph.specs.Edges.{IsGraph};
ghost use Rattle.sp_graph.specs.Masks.{Forwards, IsMaskOf, mask_at};
ghost use Rattle.sp_msg.specs.Masks.{bits};
ghost use Rattle.sp_graph.specs.Walks.{is_between};

use crate::Graph;
use sp_base::{EdgeId, NodeId};
use sp_msg::{Mask, mask_has};
use sp_topology::Edge;

impl Graph {
    /// The edges along which the path goes, whichever way. It takes no memory.
    pub fn mask_of(&self, path: &[NodeId]) -> Mask
        requires { IsGraph self.now }
        ensures { IsMaskOf self.now path.now (bits result) }
    {
        let edges = self.edges.as_slice();
        let mut mask = Mask::none();
        let mut rest = path;
        'steps: while rest.len() >= 2 {
            mask = mask.with(mask_between(edges, rest[0], rest[1]));
            rest = &rest[1..];
        }
        mask
    }
}

/// The mask of the edge between two nodes, and of no edge where there is none.
fn mask_between(edges: &[Edge], u: NodeId, v: NodeId) -> Mask
    requires { length edges.now ≤ MAX_EDGES_2 }
    ensures { bits result ≡ mask_at (position (is_between u v) edges.now) }
{
    match place_between(edges, u, v) {
        Some(place) => Mask::of(EdgeId(place as u16)),
        None => Mask::none(),
    }
}

/// Where the edge between two nodes stands. None exactly where there is none.
fn place_between(edges: &[Edge], u: NodeId, v: NodeId) -> Option<usize>
    ensures place { result ≡ position (is_between u v) edges.now }
    ensures within { IfSome result (λ place. place < length edges.now) }
{
    edges.iter().position(|edge| is_between(u, v, edge))
}

/// Whether the edge joins the two nodes, whichever comes first.
fn is_between(u: NodeId, v: NodeId, edge: &Edge) -> bool
    ensures { result ≡ is_between u v edge.now }
{
    edge.low.0 == u.0 && edge.high.0 == v.0 || edge.low.0 == v.0 && edge.high.0 == u.0
}

/// Whether a node sends along an edge what came from another node, or from none: the mask has the edge, the node is an end of it, and
/// the other end isn't where it came from. False where the number is that of no edge. It takes no memory.
pub fn forwards(graph: &Graph, mask: Mask, node: NodeId, edge: EdgeId, came: Option<NodeId>) -> bool
    ensures { IsTrue result ↔ Forwards graph.now (bits mask) node edge came }
{
    let Some(joins) = graph.edges.as_slice().get(usize::from(edge.0)) else {
        return false;
    };
    mask_has(&mask, edge)
        && (leads_on(node, came, joins.low, joins.high)
            || leads_on(node, came, joins.high, joins.low))
}

/// Whether the node is the one, and it didn't come from the other.
fn leads_on(node: NodeId, came: Option<NodeId>, from: NodeId, to: NodeId) -> bool
    ensures { IsTrue result ↔ ((node ≡ from) × (came ≢ Some to)) }
{
    node == from && came != Some(to)
}
