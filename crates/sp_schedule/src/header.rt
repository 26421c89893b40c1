// The lines of a schedule's header, read from their words. Each function answers None exactly where the line says nothing of the kind.
ghost use Rattle.std.specs.Prelude.{ℕ, ◌≡◌, ◌≢◌, ◌+◌, List, [], ◌∷◌, IfNone, IfSome, codes, length, map};
ghost use Rattle.hex.specs.Hex.{encode_lower};
ghost use Rattle.sp_base.specs.Spelling.{AreBytes};
ghost use Rattle.sp_graph.specs.Edges.{last_edge};
ghost use Rattle.sp_lines.specs.Answers.{Says};
ghost use Rattle.sp_lines.specs.Cells.{bytes_at, tested_at};
ghost use Rattle.sp_lines.specs.Rows.{fits, line_of};
ghost use Rattle.sp_schedule.specs.Header.{bad_cells, begin_cells, bounds_cells, edge_cells, end_cells, epochs_cells, height_cells, nodes_cells, seed_cells};
ghost use Rattle.sp_schedule.specs.Header.{version_cells};
ghost use Rattle.sp_schedule.specs.Header.{bounds_values, edge_values, height_number, is_height, next_after};
ghost use Rattle.sp_schedule.specs.Lines.{is_above, is_lower, is_next_edge};

use crate::{Edge, Graph, LmsHeight};
use sp_base::{
    FORMAT_1, FORMAT_2, Limits, MAX_BUFFER, MAX_STORE, MAX_WEIGHT, NodeId, max_edges, max_nodes,
};
use sp_lines::{named, ranged};
use sp_text::hex_array;

/// The format of a line `schedule FORMAT`.
pub fn version(words: &[&[u8]]) -> Option<u8>
    ensures { Says (λ format. (format, tt)) result (line_of version_cells (map (λ w. w.now) words.now)) }
{
    let [name, format] = words else {
        return None;
    };
    if !named(name, b"schedule") {
        return None;
    }
    let Ok(format) = ranged(format, u64::from(FORMAT_1), u64::from(FORMAT_2)) else {
        return None;
    };
    Some(format as u8)
}

/// The seed of a line `seed HEX64`.
pub fn seed(words: &[&[u8]]) -> Option<[u8; 32]>
    ensures { Says (λ seed. (seed, tt)) result (line_of seed_cells (map (λ w. w.now) words.now)) }
{
    match words {
        [name, seed] if named(name, b"seed") => seed_of(seed),
        _ => None,
    }
}

fn seed_of(word: &[u8]) -> Option<[u8; 32]>
    ensures { Says (λ seed. seed) result (bytes_at 32 32 word.now) }
{
    array_of(word)
}

fn array_of(word: &[u8]) -> Option<[u8; 32]>
    ensures found { IfSome result (λ bytes. word.now ≡ encode_lower bytes) }
    ensures bytes { IfSome result AreBytes }
    ensures long { IfSome result (λ bytes. length bytes ≡ 32) }
    ensures none { IfNone result ((bytes : List ℕ) → AreBytes bytes → length bytes ≡ 32 → word.now ≢ encode_lower bytes) }
{
    hex_array(word)
}

/// The height of a line `height H`.
pub fn height(words: &[&[u8]]) -> Option<LmsHeight>
    ensures { Says (λ height. (height_number height, tt)) result (line_of height_cells (map (λ w. w.now) words.now)) }
{
    match words {
        [name, height] if named(name, b"height") => height_of(height),
        _ => None,
    }
}

#[tactic(auto, unfolding(sp_lines::specs::Cells::tested_at))]
fn height_of(word: &[u8]) -> Option<LmsHeight>
    ensures { Says height_number result (tested_at 5 10 is_height word.now) }
{
    let Ok(height) = ranged(word, 5, 10) else {
        return None;
    };
    if height == 5 {
        return Some(LmsHeight::Five);
    }
    if height == 10 {
        return Some(LmsHeight::Ten);
    }
    None
}

/// The bounds of a line `bounds B C`.
pub fn bounds(words: &[&[u8]]) -> Option<Limits>
    ensures { Says bounds_values result (line_of bounds_cells (map (λ w. w.now) words.now)) }
{
    let [name, buffer, store] = words else {
        return None;
    };
    if !named(name, b"bounds") {
        return None;
    }
    let Ok(buffer) = ranged(buffer, 1, u64::from(MAX_BUFFER)) else {
        return None;
    };
    let Ok(store) = ranged(store, 1, u64::from(MAX_STORE)) else {
        return None;
    };
    Some(Limits {
        buffer: buffer as u16,
        store: store as u16,
    })
}

/// The number of nodes of a line `nodes N` in a format.
pub fn nodes(format: u8, words: &[&[u8]]) -> Option<u8>
    ensures { Says (λ nodes. (nodes, tt)) result (line_of (nodes_cells format) (map (λ w. w.now) words.now)) }
{
    let [name, nodes] = words else {
        return None;
    };
    if !named(name, b"nodes") {
        return None;
    }
    let Ok(nodes) = ranged(nodes, 2, u64::from(max_nodes(format))) else {
        return None;
    };
    Some(nodes as u8)
}

/// The edge of a line `edge A B W`, between so many nodes.
pub fn edge(nodes: u8, words: &[&[u8]]) -> Option<Edge>
    ensures { Says (edge_values nodes) result (line_of (edge_cells nodes) (map (λ w. w.now) words.now)) }
{
    match words {
        [name, low, high, weight] if named(name, b"edge") => edge_of(nodes, low, high, weight),
        _ => None,
    }
}

fn edge_of(nodes: u8, low: &[u8], high: &[u8], weight: &[u8]) -> Option<Edge>
    ensures { Says (edge_values nodes) result (line_of (edge_cells nodes) (codes "edge" ∷ low.now ∷ high.now ∷ weight.now ∷ [])) }
{
    let Ok(low) = ranged(low, 1, u64::from(nodes)) else {
        return None;
    };
    let Ok(high) = ranged(high, 1, u64::from(nodes)) else {
        return None;
    };
    let Ok(weight) = ranged(weight, 1, u64::from(MAX_WEIGHT)) else {
        return None;
    };
    Some(Edge {
        low: NodeId(low as u8),
        high: NodeId(high as u8),
        weight: weight as u32,
    })
}

/// Whether the edge goes from a lower node to a higher one, and stands after the edges so far, which aren't too many.
pub fn is_next_edge(format: u8, graph: &Graph, edge: &Edge) -> bool
    ensures { result ≡ is_next_edge format graph.now edge.now }
{
    edge.low.0 < edge.high.0
        && is_above(graph.edges.as_slice(), edge)
        && graph.edges.as_slice().len() < usize::from(max_edges(format))
}

/// Whether the edge stands after the last of those so far.
fn is_above(edges: &[Edge], edge: &Edge) -> bool
    ensures { result ≡ is_above (last_edge edges.now) edge.now }
{
    match edges.last() {
        Some(last) => is_lower(last, edge),
        None => true,
    }
}

/// Whether the first edge stands before the second.
fn is_lower(first: &Edge, second: &Edge) -> bool
    ensures { result ≡ is_lower first.now second.now }
{
    first.low.0 < second.low.0 || first.low.0 == second.low.0 && first.high.0 < second.high.0
}

/// Whether the line is that of a compromised node.
pub fn is_bad_line(words: &[&[u8]]) -> bool
    ensures { result ≡ fits (bad_cells 0 0) (map (λ w. w.now) words.now) }
{
    match words {
        [name, _] => named(name, b"bad"),
        _ => false,
    }
}

/// The compromised node of a line `bad I`, from this id on.
pub fn bad(low: u64, nodes: u8, words: &[&[u8]]) -> Option<NodeId>
    ensures { Says (λ id. (id.0, tt)) result (line_of (bad_cells low nodes) (map (λ w. w.now) words.now)) }
{
    let [name, id] = words else {
        return None;
    };
    if !named(name, b"bad") {
        return None;
    }
    let Ok(id) = ranged(id, low, u64::from(nodes)) else {
        return None;
    };
    Some(NodeId(id as u8))
}

/// The least id that may come after these compromised nodes.
pub fn next_after(bad: &[NodeId]) -> u64
    ensures { result ≡ next_after 1 bad.now }
{
    match bad.last() {
        Some(last) => above(last),
        None => 1,
    }
}

fn above(id: &NodeId) -> u64
    ensures { result ≡ id.now.0 + 1 }
{
    u64::from(id.0) + 1
}

/// Whether the line is `epochs`.
pub fn is_epochs(words: &[&[u8]]) -> bool
    ensures { result ≡ fits epochs_cells (map (λ w. w.now) words.now) }
{
    match words {
        [name] => named(name, b"epochs"),
        _ => false,
    }
}

/// Whether the line is `begin`.
pub fn is_begin(words: &[&[u8]]) -> bool
    ensures { result ≡ fits begin_cells (map (λ w. w.now) words.now) }
{
    match words {
        [name] => named(name, b"begin"),
        _ => false,
    }
}

/// Whether the line is `end`.
pub fn is_end(words: &[&[u8]]) -> bool
    ensures { result ≡ fits end_cells (map (λ w. w.now) words.now) }
{
    match words {
        [name] => named(name, b"end"),
        _ => false,
    }
}
