// Whether paths cost as much as is said.
ghost use Rattle.std.specs.Prelude.{◌≡◌, ◌↔◌, IsTrue};
ghost use Rattle.std.specs.List.{sum_by};
ghost use Rattle.sp_graph.specs.Walks.{steps, weight_between};
ghost use Rattle.sp_paths.specs.Tests.{IsLeft};

use crate::costs::weight_between;
use sp_base::{Listed, NodeId};
use sp_topology::Edge;

/// What is left of the cost after the path is paid for. None where it is too little.
fn left_after(edges: &[Edge], path: &[NodeId], cost: u64) -> Option<u64>
    ensures { IsLeft cost (sum_by (λ step. weight_between edges.now step.0 step.1) (steps path.now)) result }
{
    let mut left = cost;
    let mut rest = path;
    'steps: while rest.len() >= 2 {
        let weight = weight_between(edges, rest[0], rest[1]) as u64;
        if left < weight {
            return None;
        }
        left -= weight;
        rest = &rest[1..];
    }
    Some(left)
}

/// Whether the weights of all their edges together are this cost. No sum can be too great: the cost is paid step by step.
pub fn is_cost(edges: &[Edge], paths: &[Listed<NodeId>], cost: u64) -> bool
    ensures { IsTrue result ↔ (cost ≡ sum_by (λ path. sum_by (λ step. weight_between edges.now step.0 step.1) (steps path)) paths.now) }
{
    let mut left = cost;
    for path in paths {
        let Some(rest) = left_after(edges, path.as_slice(), left) else {
            return false;
        };
        left = rest;
    }
    left == 0
}
