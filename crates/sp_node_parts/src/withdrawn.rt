// What a version of the topology withdraws: edges, and with all its edges a node.
ghost use Rattle.std.specs.Prelude.{◌≡◌, IfOk, map};
ghost use Rattle.std.specs.List.{list_any};
ghost use Rattle.sp_node_parts.specs.Closing.{withdrawn_of};
ghost use Rattle.sp_rules.specs.Topologies.{is_end, is_joined, is_removed, removed_of, under, weights_in};

use sp_base::{Listed, Memory, NodeId};
use sp_topology::{Edge, NodeKey, Topology};
use std::alloc::Global;

/// The weight of each edge, 0 where it is withdrawn, and the nodes that are removed: they have an edge, and all their edges are withdrawn.
#[derive(Debug, Drop)]
pub struct Withdrawn {
    pub weights: Listed<u32>,
    pub removed: Listed<NodeId>,
}

impl Withdrawn {
    /// What this version withdraws. It is refused for want of memory alone.
    pub fn of(alloc: Global, topology: &Topology) -> Result<Withdrawn, Memory>
        ensures { IfOk result (λ withdrawn. withdrawn ≡ withdrawn_of topology.now) }
    {
        let edges = topology.edges.as_slice();
        let weights = weights_of(alloc, edges)?;
        let removed = removed_of(alloc, topology.nodes.as_slice(), edges, weights.as_slice())?;
        Ok(Withdrawn {
            weights: Listed::from_vec(weights),
            removed: Listed::from_vec(removed),
        })
    }
}

/// Whether a node is removed where these edges have these weights.
pub fn is_removed(edges: &[Edge], weights: &[u32], node: NodeId) -> bool
    ensures { result ≡ is_removed (under edges.now weights.now) node.0 }
{
    has_edge(edges, weights, node) && !is_joined(edges, weights, node)
}

/// Whether a node is an end of one of these edges that has a weight.
fn has_edge(edges: &[Edge], weights: &[u32], node: NodeId) -> bool
    ensures { result ≡ list_any (is_end node.0) (under edges.now weights.now) }
{
    let mut rest = weights;
    'edges: for edge in edges {
        let Some((_, others)) = rest.split_first() else {
            return false;
        };
        if is_end(edge, node) {
            return true;
        }
        rest = others;
    }
    false
}

/// Whether a node is an end of one of these edges that isn't withdrawn.
fn is_joined(edges: &[Edge], weights: &[u32], node: NodeId) -> bool
    ensures { result ≡ list_any (is_joined node.0) (under edges.now weights.now) }
{
    let mut rest = weights;
    'edges: for edge in edges {
        let Some((weight, others)) = rest.split_first() else {
            return false;
        };
        if is_end(edge, node) && *weight != 0 {
            return true;
        }
        rest = others;
    }
    false
}

/// Whether a node is an end of an edge.
fn is_end(edge: &Edge, node: NodeId) -> bool
    ensures { result ≡ is_end node.0 edge.now }
{
    edge.low.0 == node.0 || edge.high.0 == node.0
}

/// The weight of each edge.
fn weights_of(alloc: Global, edges: &[Edge]) -> Result<Vec<u32>, Memory>
    ensures { IfOk result (λ weights. weights.items ≡ weights_in edges.now) }
{
    Ok(edges.iter().map(|edge| edge.weight).collect(alloc)?)
}

/// Those of these nodes that are removed where the edges have these weights.
fn removed_of(
    alloc: Global,
    nodes: &[NodeKey],
    edges: &[Edge],
    weights: &[u32],
) -> Result<Vec<NodeId>, Memory>
    ensures { IfOk result (λ removed. removed.items ≡ removed_of (map (λ n. n.id) nodes.now) (under edges.now weights.now)) }
{
    let removed = nodes
        .iter()
        .map(|node| node.id)
        .filter(|id| is_removed(edges, weights, *id))
        .collect(alloc)?;
    Ok(removed)
}
