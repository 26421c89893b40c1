// The topology as a graph, under the weights that are in effect.
ghost use Rattle.std.specs.Prelude.{◌≡◌, ◌≤◌, IfOk, length};
ghost use Rattle.sp_base.specs.declared.limits.TheConstants.{MAX_EDGES_2};
ghost use Rattle.sp_rules.specs.Masks.{graph_of, greatest_id, weighed};
ghost use Rattle.sp_rules.specs.Topologies.{IsRunnable};

use sp_base::{EdgeId, Listed, Memory};
use sp_graph::Graph;
use sp_topology::{Edge, NodeKey, Topology};
use sp_weights::Weights;
use std::alloc::Global;

/// The greatest id of a node, 0 where there is none.
fn greatest_id(nodes: &[NodeKey]) -> u8
    ensures { result ≡ greatest_id nodes.now }
{
    let mut greatest = 0;
    'nodes: for node in nodes {
        greatest = node.id.0.max(greatest);
    }
    greatest
}

/// The edges that aren't withdrawn with the weights that are in effect.
fn weighed(alloc: Global, weights: &Weights, edges: &[Edge]) -> Result<Vec<Edge>, Memory>
    requires edges { weights.now.edges ≡ edges.now }
    requires few { length edges.now ≤ MAX_EDGES_2 }
    ensures { IfOk result (λ made. made.items ≡ weighed weights.now 0 edges.now) }
{
    let mut made = Vec::with_capacity(alloc, edges.len())?;
    let mut place = 0u16;
    'edges: for edge in edges {
        let id = EdgeId(place);
        if !weights.is_withdrawn(id) {
            made.push(Edge {
                low: edge.low,
                high: edge.high,
                weight: weights.effective(id),
            })?;
        }
        place += 1;
    }
    Ok(made)
}

/// The graph in which paths are sought: the edges of the topology that aren't withdrawn, under the weights that are in effect.
pub fn graph_of(alloc: Global, topology: &Topology, weights: &Weights) -> Result<Graph, Memory>
    requires topology { IsRunnable topology.now }
    requires edges { weights.now.edges ≡ topology.now.edges }
    ensures { IfOk result (λ graph. graph ≡ graph_of topology.now weights.now) }
{
    let nodes = greatest_id(topology.nodes.as_slice());
    let edges = weighed(alloc, weights, topology.edges.as_slice())?;
    Ok(Graph {
        nodes,
        edges: Listed::from_vec(edges),
    })
}
