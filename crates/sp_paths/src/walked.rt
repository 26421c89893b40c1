// Whether a list of nodes is a path through a graph, from one end to the other.
ghost use Rattle.std.specs.Prelude.{◌≡◌};
ghost use Rattle.std.specs.List.{list_all, list_any};
ghost use Rattle.sp_graph.specs.Walks.{is_between, steps};
ghost use Rattle.sp_paths.specs.Tests.{all_differ, goes_between, has_node, is_joined, is_path};

use crate::costs::is_between;
use sp_base::{Listed, NodeId};
use sp_topology::Edge;

/// Whether an edge joins the two nodes.
fn is_joined(edges: &[Edge], u: NodeId, v: NodeId) -> bool
    ensures { result ≡ list_any (is_between u v) edges.now }
{
    for edge in edges {
        if is_between(u, v, edge) {
            return true;
        }
    }
    false
}

/// Whether each step of the path is along an edge.
fn all_joined(edges: &[Edge], path: &[NodeId]) -> bool
    ensures { result ≡ list_all (is_joined edges.now) (steps path.now) }
{
    let mut rest = path;
    'steps: while rest.len() >= 2 {
        if !is_joined(edges, rest[0], rest[1]) {
            return false;
        }
        rest = &rest[1..];
    }
    true
}

/// Whether the node is on the path.
pub fn has_node(path: &[NodeId], node: NodeId) -> bool
    ensures { result ≡ has_node path.now node }
{
    for other in path {
        if node.0 == other.0 {
            return true;
        }
    }
    false
}

/// Whether no node comes twice.
fn all_differ(path: &[NodeId]) -> bool
    ensures { result ≡ all_differ path.now }
{
    let mut rest = path;
    'nodes: while rest.len() >= 1 {
        if has_node(&rest[1..], rest[0]) {
            return false;
        }
        rest = &rest[1..];
    }
    true
}

/// Whether the list begins with the one node and ends with the other, in another place.
fn goes_between(s: NodeId, t: NodeId, path: &[NodeId]) -> bool
    ensures { result ≡ goes_between s t path.now }
{
    let Some((first, rest)) = path.split_first() else {
        return false;
    };
    let Some((last, _inner)) = rest.split_last() else {
        return false;
    };
    first.0 == s.0 && last.0 == t.0
}

/// Whether the list is a path from `s` to `t`.
fn is_path(edges: &[Edge], s: NodeId, t: NodeId, path: &[NodeId]) -> bool
    ensures { result ≡ is_path edges.now s t path.now }
{
    goes_between(s, t, path) && all_joined(edges, path) && all_differ(path)
}

/// Whether each list is a path from `s` to `t`.
pub fn are_paths(edges: &[Edge], s: NodeId, t: NodeId, paths: &[Listed<NodeId>]) -> bool
    ensures { result ≡ list_all (is_path edges.now s t) paths.now }
{
    for path in paths {
        if !is_path(edges, s, t, path.as_slice()) {
            return false;
        }
    }
    true
}
