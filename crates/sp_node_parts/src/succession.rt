// Which version of the topology may follow which.
ghost use Rattle.std.specs.Prelude.{◌≡◌, ◌==◌, ◌&&◌, nat_lt, length};
ghost use Rattle.std.specs.Cmp.Lexicographic.{pointwise};
ghost use Rattle.std.specs.List.{list_any};
ghost use Rattle.sp_node_parts.specs.Closing.{now_under, withdrawn_of};
ghost use Rattle.sp_rules.specs.Topologies.{has_same_ends, is_same_height, is_same_node, returns, succeeds, under};

use crate::live::Live;
use crate::withdrawn::{Withdrawn, is_removed};
use sp_topology::{Edge, LmsHeight, NodeKey, Topology};

/// Whether a topology, which withdraws this, follows the version of the first one that a node runs under: a higher version of the same format, height,
/// nodes with their keys, and ends of edges, in which no removed node returns. It takes no memory.
pub fn succeeds(first: &Topology, live: &Live, next: &Topology, withdrawn: &Withdrawn) -> bool
    requires count { length live.now.weights ≡ length first.now.edges }
    requires withdrawn { withdrawn.now ≡ withdrawn_of next.now }
    ensures { result ≡ succeeds (now_under first.now live.now) next.now }
{
    let nodes = first.nodes.as_slice();
    let edges = first.edges.as_slice();
    if !is_later(first, live, next) {
        return false;
    }
    if !are_same_nodes(nodes, next.nodes.as_slice()) {
        return false;
    }
    if !have_same_ends(edges, next.edges.as_slice()) {
        return false;
    }
    !one_returns(
        nodes,
        edges,
        live.weights.as_slice(),
        next.edges.as_slice(),
        withdrawn.weights.as_slice(),
    )
}

/// Whether it has a higher version of the same format and height.
fn is_later(first: &Topology, live: &Live, next: &Topology) -> bool
    ensures { result ≡ (nat_lt live.now.version next.now.version && (first.now.format == next.now.format)
        && is_same_height first.now.height next.now.height) }
{
    live.version < next.version
        && first.format == next.format
        && is_same_height(first.height, next.height)
}

fn is_same_height(a: LmsHeight, b: LmsHeight) -> bool
    ensures { result ≡ is_same_height a b }
{
    match (a, b) {
        (LmsHeight::Five, LmsHeight::Five) => true,
        (LmsHeight::Ten, LmsHeight::Ten) => true,
        _ => false,
    }
}

fn is_same_node(a: &NodeKey, b: &NodeKey) -> bool
    ensures { result ≡ is_same_node a.now b.now }
{
    a.id.0 == b.id.0 && a.key == b.key
}

/// Whether these are the same nodes with the same keys, in the same order.
fn are_same_nodes(old: &[NodeKey], new: &[NodeKey]) -> bool
    ensures { result ≡ pointwise is_same_node old.now new.now }
{
    let mut rest = new;
    'nodes: for node in old {
        let Some((first, others)) = rest.split_first() else {
            return false;
        };
        if !is_same_node(node, first) {
            return false;
        }
        rest = others;
    }
    rest.is_empty()
}

/// Whether these edges, whatever their weights, join the same nodes in the same order.
fn have_same_ends(old: &[Edge], new: &[Edge]) -> bool
    ensures { result ≡ pointwise has_same_ends old.now new.now }
{
    let mut rest = new;
    'edges: for edge in old {
        let Some((first, others)) = rest.split_first() else {
            return false;
        };
        if edge.low.0 != first.low.0 || edge.high.0 != first.high.0 {
            return false;
        }
        rest = others;
    }
    rest.is_empty()
}

/// Whether one of these nodes is removed under the old edges and weights, and not under the new ones.
fn one_returns(
    nodes: &[NodeKey],
    old_edges: &[Edge],
    old_weights: &[u32],
    new_edges: &[Edge],
    new_weights: &[u32],
) -> bool
    ensures { result ≡ list_any (returns (under old_edges.now old_weights.now) (under new_edges.now new_weights.now)) nodes.now }
{
    nodes.iter().any(|node| {
        is_removed(old_edges, old_weights, node.id) && !is_removed(new_edges, new_weights, node.id)
    })
}
