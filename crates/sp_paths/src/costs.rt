// What a path costs.
ghost use Rattle.std.specs.Prelude.{◌≡◌, ◌*◌, ◌+◌, ◌≤◌, ◌^◌, length};
ghost use Rattle.std.specs.List.{All, sum_by};
ghost use Rattle.sp_base.specs.declared.limits.TheConstants.{MAX_NODES_2};
ghost use Rattle.sp_paths.specs.declared.limits.TheConstants.{MAX_PATHS};
ghost use Rattle.sp_graph.specs.Edges.{IsWeight};
ghost use Rattle.sp_graph.specs.Walks.{is_between, steps, weight_between};

use sp_base::{Listed, NodeId};
use sp_topology::Edge;

/// Whether the edge joins the two nodes, whichever comes first.
pub fn is_between(u: NodeId, v: NodeId, edge: &Edge) -> bool
    ensures { result ≡ is_between u v edge.now }
{
    edge.low.0 == u.0 && edge.high.0 == v.0 || edge.low.0 == v.0 && edge.high.0 == u.0
}

/// The weight of the edge between the two nodes, and 0 where there is none.
pub fn weight_between(edges: &[Edge], u: NodeId, v: NodeId) -> u32
    ensures { result ≡ weight_between edges.now u v }
{
    for edge in edges {
        if is_between(u, v, edge) {
            return edge.weight;
        }
    }
    0
}

/// The weights of a path's edges together.
fn path_cost(edges: &[Edge], path: &[NodeId]) -> u64
    requires short { length path.now ≤ MAX_NODES_2 }
    ensures bound { result ≤ length path.now * 2 ^ 32 }
    ensures sum { result ≡ sum_by (λ step. weight_between edges.now step.0 step.1) (steps path.now) }
{
    let mut total = 0u64;
    let mut rest = path;
    'steps: while rest.len() >= 2 {
        total += weight_between(edges, rest[0], rest[1]) as u64;
        rest = &rest[1..];
    }
    total
}

/// The weights of all their edges together.
pub fn cost(edges: &[Edge], paths: &[Listed<NodeId>]) -> u64
    requires short { All (λ path. length path ≤ MAX_NODES_2) paths.now }
    requires few { length paths.now ≤ MAX_PATHS }
    ensures { result ≡ sum_by (λ path. sum_by (λ step. weight_between edges.now step.0 step.1) (steps path)) paths.now }
{
    let mut total = 0u64;
    for path in paths {
        total += path_cost(edges, path.as_slice());
    }
    total
}
