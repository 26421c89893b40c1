// Whether potentials prove that paths are the cheapest of their number.
ghost use Rattle.std.specs.Prelude.{◌≡◌, ◌≤◌, ◌<◌, ◌↔◌, ◌+ℤ◌, IsTrue, pos, slice_index_or, true};
ghost use Rattle.std.specs.List.{All};
ghost use Rattle.sp_base.specs.declared.id.NodeId.{NodeId};
ghost use Rattle.sp_graph.specs.Certificates.{IsCertificate, number_of};
ghost use Rattle.sp_graph.specs.Split.{edge_arc, node_arc, parts_of, stays};
ghost use Rattle.sp_paths.specs.Cheapest.{AreEnds, IsNode};
ghost use Rattle.sp_paths.specs.Parts.{arc, node_of};
ghost use Rattle.sp_paths.specs.Tests.{FitBoth, FitsArc, FitsAs, FitsAt, below, place};

use crate::cheapest::is_node;
use crate::lanes_of::stays;
use crate::paths::Paths;
use crate::used::{any_goes, any_passes};
use sp_base::NodeId;
use sp_graph::{Graph, Part};
use sp_topology::Edge;

/// An arc from part to part.
#[derive(Clone, Copy, Debug)]
struct Arc {
    from: Part,
    to: Part,
    cost: u32,
}

/// 1 where the first node is below the second.
fn below(first: NodeId, second: NodeId) -> usize
    requires from_one { (1 ≤ first.0) × (1 ≤ second.0) }
    ensures is { result ≡ below first.0 second.0 }
    ensures small { result < second.0 }
{
    if first.0 < second.0 { 1 } else { 0 }
}

/// The place of a part among the parts that are there between these ends.
fn place(part: Part, s: NodeId, t: NodeId) -> usize
    requires from_one { (1 ≤ (node_of part).0) × (1 ≤ s.0) × (1 ≤ t.0) }
    ensures { result ≡ place s t part }
{
    let (node, inner) = match part {
        Part::In(node) => (node, 0),
        Part::Out(node) => (node, if node.0 == s.0 { 0 } else { 1 }),
    };
    2 * (node.0 as usize - 1) - below(s, node) - below(t, node) + inner
}

/// The node of a part.
fn node_of(part: Part) -> NodeId
    ensures { result ≡ node_of part }
{
    match part {
        Part::In(node) => node,
        Part::Out(node) => node,
    }
}

/// The number at a place of the list, and 0 past its end.
fn number_at(numbers: &[i64], place: usize) -> i64
    ensures { result ≡ slice_index_or numbers.now place (pos 0) }
{
    if place < numbers.len() {
        numbers[place]
    } else {
        0
    }
}

/// The potential of a part that is there between these ends, and 0 where it is one of no node.
fn potential_of(graph: &Graph, s: NodeId, t: NodeId, potentials: &[i64], part: Part) -> i64
    requires ends { AreEnds graph.now s t }
    requires there { stays s t part ≡ true }
    ensures { result ≡ number_of (parts_of graph.now s t) potentials.now part }
{
    if !is_node(graph, node_of(part)) {
        return 0;
    }
    number_at(potentials, place(part, s, t))
}

/// A potential, where sums have room.
fn wide(potential: i64) -> i128
    ensures { result ≡ potential }
{
    potential as i128
}

/// The potential where the arc begins and its cost.
fn along(cost: u32, from: i64) -> i128
    ensures { result ≡ pos cost +ℤ from }
{
    cost as i128 + wide(from)
}

/// Whether the reduced cost of a residual arc is at least 0.
fn fits(used: bool, cost: u32, from: i64, to: i64) -> bool
    ensures { IsTrue result ↔ FitsArc used cost from to }
{
    if used {
        along(cost, from) <= wide(to)
    } else {
        wide(to) <= along(cost, from)
    }
}

/// Whether the arc fits the potentials, where it is there between these ends.
fn arc_fits(graph: &Graph, s: NodeId, t: NodeId, potentials: &[i64], way: Arc, used: bool) -> bool
    requires ends { AreEnds graph.now s t }
    ensures { IsTrue result ↔ FitsAs graph.now s t potentials.now used (arc way.from way.to way.cost) }
{
    if !stays(way.from, s, t) || !stays(way.to, s, t) {
        return true;
    }
    let from = potential_of(graph, s, t, potentials, way.from);
    let to = potential_of(graph, s, t, potentials, way.to);
    fits(used, way.cost, from, to)
}

/// Whether the arc through the node fits.
fn node_fits(graph: &Graph, s: NodeId, t: NodeId, paths: &Paths, node: NodeId) -> bool
    requires ends { AreEnds graph.now s t }
    ensures { IsTrue result ↔ FitsAt graph.now s t paths.now (node_arc node) }
{
    let way = Arc {
        from: Part::In(node),
        to: Part::Out(node),
        cost: 0,
    };
    let used = any_passes(paths.paths.as_slice(), node);
    arc_fits(graph, s, t, paths.potentials.as_slice(), way, used)
}

/// Whether the arc from the one node to the other fits.
fn step_fits(
    graph: &Graph,
    s: NodeId,
    t: NodeId,
    paths: &Paths,
    u: NodeId,
    v: NodeId,
    weight: u32,
) -> bool
    requires ends { AreEnds graph.now s t }
    ensures { IsTrue result ↔ FitsAt graph.now s t paths.now (edge_arc u v weight) }
{
    let way = Arc {
        from: Part::Out(u),
        to: Part::In(v),
        cost: weight,
    };
    let used = any_goes(paths.paths.as_slice(), u, v);
    arc_fits(graph, s, t, paths.potentials.as_slice(), way, used)
}

/// Whether the arcs through all nodes fit.
fn nodes_fit(graph: &Graph, s: NodeId, t: NodeId, paths: &Paths) -> bool
    requires ends { AreEnds graph.now s t }
    ensures { IsTrue result ↔ ((v : NodeId) → IsNode graph.now v → FitsAt graph.now s t paths.now (node_arc v)) }
{
    for place in 0..graph.nodes {
        if !node_fits(graph, s, t, paths, NodeId(place + 1)) {
            return false;
        }
    }
    true
}

/// Whether the arcs along the edge fit, both ways.
#[tactic(auto, unfolding(crate::specs::Tests::FitBoth))]
fn edge_fits(graph: &Graph, s: NodeId, t: NodeId, paths: &Paths, edge: &Edge) -> bool
    requires ends { AreEnds graph.now s t }
    ensures { IsTrue result ↔ FitBoth graph.now s t paths.now edge.now }
{
    step_fits(graph, s, t, paths, edge.low, edge.high, edge.weight)
        && step_fits(graph, s, t, paths, edge.high, edge.low, edge.weight)
}

/// Whether the arcs along all edges fit.
fn edges_fit(graph: &Graph, s: NodeId, t: NodeId, paths: &Paths) -> bool
    requires ends { AreEnds graph.now s t }
    ensures { IsTrue result ↔ All (FitBoth graph.now s t paths.now) graph.now.edges }
{
    for edge in graph.edges.as_slice() {
        if !edge_fits(graph, s, t, paths, edge) {
            return false;
        }
    }
    true
}

/// Whether the potentials are a certificate of the paths.
pub fn is_certificate(graph: &Graph, s: NodeId, t: NodeId, paths: &Paths) -> bool
    requires ends { AreEnds graph.now s t }
    ensures { IsTrue result ↔ IsCertificate graph.now s t paths.now.paths paths.now.potentials }
{
    if paths.potentials.as_slice().len() != 2 * graph.nodes as usize - 2 {
        return false;
    }
    if !nodes_fit(graph, s, t, paths) {
        return false;
    }
    edges_fit(graph, s, t, paths)
}
