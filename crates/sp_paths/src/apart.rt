// Whether paths share no node but their ends, and no edge.
ghost use Rattle.std.specs.Prelude.{◌≡◌, ◌↔◌, IsTrue};
ghost use Rattle.std.specs.List.{AllPairs, list_all};
ghost use Rattle.sp_graph.specs.Disjoint.{Apart};
ghost use Rattle.sp_paths.specs.Tests.{all_apart, are_apart, has_step, share_no_edge, share_no_node};

use crate::walked::has_node;
use sp_base::{Listed, NodeId};

/// Whether no node of the first path but the ends is on the second.
fn share_no_node(s: NodeId, t: NodeId, path: &[NodeId], other: &[NodeId]) -> bool
    ensures { result ≡ share_no_node s t path.now other.now }
{
    for node in path {
        if !(node.0 == s.0 || node.0 == t.0) && has_node(other, *node) {
            return false;
        }
    }
    true
}

/// Whether a step of the path is between the two nodes, either way.
fn has_step(path: &[NodeId], u: NodeId, v: NodeId) -> bool
    ensures { result ≡ has_step path.now u v }
{
    let mut rest = path;
    'steps: while rest.len() >= 2 {
        let (from, to) = (rest[0], rest[1]);
        if u.0 == from.0 && v.0 == to.0 || u.0 == to.0 && v.0 == from.0 {
            return true;
        }
        rest = &rest[1..];
    }
    false
}

/// Whether the paths go along no edge both, either way.
fn share_no_edge(path: &[NodeId], other: &[NodeId]) -> bool
    ensures { result ≡ share_no_edge path.now other.now }
{
    let mut rest = path;
    'steps: while rest.len() >= 2 {
        if has_step(other, rest[0], rest[1]) {
            return false;
        }
        rest = &rest[1..];
    }
    true
}

/// Whether the path shares no node but the ends with any of the others, and no edge.
fn is_apart(s: NodeId, t: NodeId, path: &[NodeId], others: &[Listed<NodeId>]) -> bool
    ensures { result ≡ list_all (are_apart s t path.now) others.now }
{
    for other in others {
        if !(share_no_node(s, t, path, other.as_slice()) && share_no_edge(path, other.as_slice())) {
            return false;
        }
    }
    true
}

/// Whether no two of the paths share a node but the ends, or an edge.
pub fn are_apart(s: NodeId, t: NodeId, paths: &[Listed<NodeId>]) -> bool
    ensures { result ≡ all_apart s t paths.now }
{
    let mut rest = paths;
    'paths: while rest.len() >= 1 {
        if !is_apart(s, t, rest[0].as_slice(), &rest[1..]) {
            return false;
        }
        rest = &rest[1..];
    }
    true
}
