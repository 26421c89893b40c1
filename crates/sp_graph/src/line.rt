// One line at its stage: where it leads, or why it is refused.
ghost use Rattle.std.specs.Prelude.{◌≡◌, ◌≢◌, ◌↔◌, IfNone, IfOk, IfSome, IsTrue, codes, map};
ghost use Rattle.sp_base.specs.Formats.{by_format};
ghost use Rattle.sp_graph.specs.Edges.{with_edge};
ghost use Rattle.sp_text.specs.Spelling.{Word};
ghost use Rattle.sp_graph.specs.Lines.{Says, edge_form, nodes_form};
ghost use Rattle.sp_graph.specs.Refusals.{UnlessMemory};
ghost use Rattle.sp_graph.specs.Spelling.{end_words, version_words};

use crate::edge_line::is_next;
use crate::fields::{edge_of, nodes_of};
use crate::stage::Stage;
use crate::{Graph, GraphRefused};
use sp_base::{FORMAT_1, Listed, Memory};
use sp_text::{fields, is_word};
use sp_topology::Edge;
use std::alloc::Global;

/// Where the words of the line of this number lead from the stage.
pub fn follow(
    alloc: Global,
    format: u8,
    stage: Stage,
    line: u32,
    words: &[&[u8]],
) -> Result<Stage, GraphRefused>
    ensures { UnlessMemory (Says format line (map (λ w. w.now) words.now) stage) result }
{
    match stage {
        Stage::Start => after_start(format, line, words),
        Stage::Version => after_version(alloc, format, line, words),
        Stage::Edges(graph) => after_edges(format, graph, line, words),
        Stage::End(_) => Err(GraphRefused::AfterEnd { line }),
    }
}

fn after_start(format: u8, line: u32, words: &[&[u8]]) -> Result<Stage, GraphRefused>
    ensures { Says format line (map (λ w. w.now) words.now) Stage.Start result }
{
    if is_version(format, words) {
        Ok(Stage::Version)
    } else {
        Err(GraphRefused::Form { line })
    }
}

fn after_version(
    alloc: Global,
    format: u8,
    line: u32,
    words: &[&[u8]],
) -> Result<Stage, GraphRefused>
    ensures { Says format line (map (λ w. w.now) words.now) Stage.Version result }
{
    let Some(word) = nodes_word(words) else {
        return Err(GraphRefused::Form { line });
    };
    let nodes = nodes_of(format, line, word)?;
    Ok(Stage::Edges(Graph {
        nodes,
        edges: Listed::from_vec(Vec::new(alloc)),
    }))
}

fn after_edges(format: u8, graph: Graph, line: u32, words: &[&[u8]]) -> Result<Stage, GraphRefused>
    ensures { UnlessMemory (Says format line (map (λ w. w.now) words.now) (Stage.Edges graph)) result }
{
    if is_end(words) {
        return Ok(Stage::End(graph));
    }
    let Some((low, high, weight)) = edge_words(words) else {
        return Err(GraphRefused::Form { line });
    };
    let edge = edge_of(graph.nodes, line, low, high, weight)?;
    if !is_next(format, &graph, &edge) {
        return Err(GraphRefused::Range { line });
    }
    Ok(Stage::Edges(with_edge(graph, edge)?))
}

/// The field of a line `nodes N`. None exactly where the words have another form.
fn nodes_word<'a>(words: &'a [&'a [u8]]) -> Option<&'a [u8]>
    ensures found { IfSome result (λ n. map (λ w. w.now) words.now ≡ nodes_form n.now) }
    ensures none { IfNone result ((n : Word) → map (λ w. w.now) words.now ≢ nodes_form n) }
{
    match fields(b"nodes", words)? {
        [nodes] => Some(nodes),
        _ => None,
    }
}

/// The fields of a line `edge A B W`. None exactly where the words have another form.
fn edge_words<'a>(words: &'a [&'a [u8]]) -> Option<(&'a [u8], &'a [u8], &'a [u8])>
    ensures found { IfSome result (λ e. map (λ w. w.now) words.now ≡ edge_form e.0.now e.1.now e.2.now) }
    ensures none { IfNone result ((a b w : Word) → map (λ w. w.now) words.now ≢ edge_form a b w) }
{
    match fields(b"edge", words)? {
        [low, high, weight] => Some((low, high, weight)),
        _ => None,
    }
}

/// Whether the words are `graph` and the format.
fn is_version(format: u8, words: &[&[u8]]) -> bool
    ensures { IsTrue result ↔ (map (λ w. w.now) words.now ≡ version_words format) }
{
    match fields(b"graph", words) {
        Some([version]) => is_format(format, version),
        _ => false,
    }
}

/// Whether the word is the format.
fn is_format(format: u8, word: &[u8]) -> bool
    ensures { IsTrue result ↔ (word.now ≡ by_format format (codes "1") (codes "2")) }
{
    if format == FORMAT_1 {
        is_word(word, b"1")
    } else {
        is_word(word, b"2")
    }
}

/// Whether the words are the one word `end`.
fn is_end(words: &[&[u8]]) -> bool
    ensures { IsTrue result ↔ (map (λ w. w.now) words.now ≡ end_words) }
{
    matches!(fields(b"end", words), Some([]))
}

/// The graph with one more edge.
fn with_edge(mut graph: Graph, edge: Edge) -> Result<Graph, Memory>
    ensures { IfOk result (λ more. more ≡ with_edge graph edge) }
{
    graph.edges.push(edge)?;
    Ok(graph)
}
