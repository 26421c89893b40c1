// The line of an edge: its two ends, the lower one first, and its weight. Edges ascend by their ends.
ghost use Rattle.std.specs.Prelude.{◌≡◌, ◌↔◌, IfSome, IsTrue, map};
ghost use Rattle.std.specs.Fmt.{decimal};
ghost use Rattle.sp_base.specs.Finds.{Finds};
ghost use Rattle.sp_graph.specs.Edges.{IsAmong, IsLower, IsNextEdge, IsWeight, last_edge};
ghost use Rattle.sp_graph.specs.Spelling.{edge_words};

use crate::Graph;
use sp_base::{MAX_WEIGHT, max_edges};
use sp_text::{fields, node_in, number_in};
use sp_topology::Edge;

/// The edge of a line `edge A B W`. None exactly where the line is no such edge that may come next.
pub fn edge(format: u8, graph: &Graph, words: &[&[u8]]) -> Option<Edge>
    ensures { Finds (λ e. IsNextEdge format graph.now e × (map (λ w. w.now) words.now ≡ edge_words e)) result }
{
    let edge = edge_among(graph.nodes, words)?;
    if is_next(format, graph, &edge) {
        Some(edge)
    } else {
        None
    }
}

/// The edge of a line `edge A B W`, with nodes from 1 to the last and a weight in its range.
fn edge_among(nodes: u8, words: &[&[u8]]) -> Option<Edge>
    ensures { Finds (λ e. IsAmong nodes e × IsWeight e × (map (λ w. w.now) words.now ≡ edge_words e)) result }
{
    match fields(b"edge", words)? {
        [low, high, weight] => edge_of(nodes, low, high, weight),
        _ => None,
    }
}

/// The edge of these words.
fn edge_of(nodes: u8, low: &[u8], high: &[u8], weight: &[u8]) -> Option<Edge>
    ensures { Finds (λ e. IsAmong nodes e × IsWeight e × (low.now ≡ decimal e.low.0) × (high.now ≡ decimal e.high.0) × (weight.now ≡ decimal e.weight)) result }
{
    Some(Edge {
        low: node_in(low, 1, nodes)?,
        high: node_in(high, 1, nodes)?,
        weight: number_in(weight, 1, u64::from(MAX_WEIGHT))? as u32,
    })
}

/// Whether the edge goes from a lower node to a higher one, stands after the edges so far, and these are fewer than
/// the format may have.
pub fn is_next(format: u8, graph: &Graph, edge: &Edge) -> bool
    requires among { IsAmong graph.now.nodes edge.now }
    requires weight { IsWeight edge.now }
    ensures { IsTrue result ↔ IsNextEdge format graph.now edge.now }
{
    edge.low.0 < edge.high.0
        && ascends(graph.edges.as_slice(), edge)
        && graph.edges.as_slice().len() < usize::from(max_edges(format))
}

/// Whether the edge stands after the last of those so far.
fn ascends(edges: &[Edge], edge: &Edge) -> bool
    ensures { IsTrue result ↔ IfSome (last_edge edges.now) (λ f. IsLower f edge.now) }
{
    match edges.last() {
        Some(last) => is_lower(last, edge),
        None => true,
    }
}

/// Whether the first edge stands before the second.
fn is_lower(first: &Edge, second: &Edge) -> bool
    ensures { IsTrue result ↔ IsLower first.now second.now }
{
    first.low.0 < second.low.0 || first.low.0 == second.low.0 && first.high.0 < second.high.0
}
