// The lanes of a graph: one for each arc of the split graph, in the order of the arcs, and none of them used.
ghost use Rattle.std.specs.Prelude.{◌≡◌, ◌≤◌, ◌++◌, ◌∷◌, [], IfOk, OnOk, map};
ghost use Rattle.std.specs.List.{All, filter};
ghost use Rattle.sp_base.specs.declared.limits.TheConstants.{MAX_NODES_2, MAX_WEIGHT};
ghost use Rattle.sp_graph.specs.Edges.{IsGraph};
ghost use Rattle.sp_graph.specs.Split.{arcs_of, node_arc, nodes_to, stays};
ghost use Rattle.sp_paths.specs.Parts.{IsFresh, arc, arc_of, is_there, node_of, number};

use crate::lane::Lane;
use sp_base::{Memory, NodeId};
use sp_graph::{Graph, Part};
use sp_topology::Edge;
use std::alloc::Global;
use std::vec::Vec;

/// The number of a part: twice its node for the in-part, and one more for the out-part.
pub fn number(part: Part) -> u8
    requires few { (node_of part).0 ≤ MAX_NODES_2 }
    ensures { result ≡ number part }
{
    match part {
        Part::In(node) => 2 * node.0,
        Part::Out(node) => 2 * node.0 + 1,
    }
}

/// Whether the part is there between these ends.
pub fn stays(part: Part, s: NodeId, t: NodeId) -> bool
    ensures { result ≡ stays s t part }
{
    match part {
        Part::In(node) => node != s,
        Part::Out(node) => node != t,
    }
}

/// Adds the lane of an arc, where both its parts are there.
fn push_arc(
    lanes: &mut Vec<Lane>,
    from: Part,
    to: Part,
    cost: u32,
    s: NodeId,
    t: NodeId,
) -> Result<(), Memory>
    requires parts { ((node_of from).0 ≤ MAX_NODES_2) × ((node_of to).0 ≤ MAX_NODES_2) }
    requires weight { cost ≤ MAX_WEIGHT }
    requires fresh { All IsFresh lanes.old.items }
    ensures arcs { OnOk result (map arc_of lanes.new.items ≡ map arc_of lanes.old.items ++ filter (is_there s t) (arc from to cost ∷ [])) }
    ensures fresh { All IsFresh lanes.new.items }
{
    if stays(from, s, t) && stays(to, s, t) {
        lanes.push(Lane {
            from: number(from),
            to: number(to),
            cost,
            used: false,
        })?;
    }
    Ok(())
}

/// Adds the lanes through a node, and so for each node.
fn push_nodes(lanes: &mut Vec<Lane>, nodes: u8, s: NodeId, t: NodeId) -> Result<(), Memory>
    requires few { nodes ≤ MAX_NODES_2 }
    requires fresh { All IsFresh lanes.old.items }
    ensures arcs { OnOk result (map arc_of lanes.new.items ≡ map arc_of lanes.old.items ++ filter (is_there s t) (map node_arc (nodes_to nodes))) }
    ensures fresh { All IsFresh lanes.new.items }
{
    for place in 0..nodes {
        let node = NodeId(place + 1);
        push_arc(lanes, Part::In(node), Part::Out(node), 0, s, t)?;
    }
    Ok(())
}

/// As many lanes as there can be: one for each node, and two for each edge.
fn room(nodes: u8, edges: &[Edge]) -> usize {
    edges.len().saturating_mul(2).saturating_add(nodes as usize)
}

/// The lanes of a graph between two ends.
pub fn lanes_of(alloc: Global, graph: &Graph, s: NodeId, t: NodeId) -> Result<Vec<Lane>, Memory>
    requires graph { IsGraph graph.now }
    ensures arcs { IfOk result (λ lanes. map arc_of lanes.items ≡ arcs_of graph.now s t) }
    ensures fresh { IfOk result (λ lanes. All IsFresh lanes.items) }
{
    let edges = graph.edges.as_slice();
    let mut lanes = Vec::with_capacity(alloc, room(graph.nodes, edges))?;
    push_nodes(&mut lanes, graph.nodes, s, t)?;
    for edge in edges {
        push_arc(
            &mut lanes,
            Part::Out(edge.low),
            Part::In(edge.high),
            edge.weight,
            s,
            t,
        )?;
        push_arc(
            &mut lanes,
            Part::Out(edge.high),
            Part::In(edge.low),
            edge.weight,
            s,
            t,
        )?;
    }
    Ok(lanes)
}
