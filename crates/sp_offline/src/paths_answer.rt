// What a query over the text of a graph comes to, as the text that is written.
ghost use Rattle.std.specs.Prelude.{◌≡◌, ◌≤◌, false, IfOk, length};
ghost use Rattle.sp_base.specs.declared.limits.TheConstants.{MAX_INPUT_BYTES};
ghost use Rattle.sp_graph.specs.Edges.{IsGraph};
ghost use Rattle.sp_graph.specs.Spelling.{graph_text};
ghost use Rattle.sp_offline.specs.PathsAnswers.{IsAnswer, SaysGraph};
ghost use Rattle.sp_offline.specs.Queries.{IsQuery};

use crate::Query;
use crate::paths_lines::{fewer_text, paths_text};
use crate::paths_refusal::{graph_refused_line, refused_line};
use sp_base::{Bytes, Memory};
use sp_graph::{Graph, GraphRefused, read};
use sp_paths::{PathRefused, disjoint};
use std::alloc::Global;

/// What a query over the text of a graph comes to, as the text that is written.
#[derive(Debug, Drop)]
pub enum PathsAnswer {
    /// The cheapest paths, a line each, and their cost.
    Found(Bytes),
    /// How many disjoint paths there are, and the parts of the smallest cut.
    Fewer(Bytes),
    /// The first bad line and why it is refused, or that an end is no node.
    Refused(Bytes),
}

/// The answer to a query over the text of a graph. A text that `is_cut` had more bytes than may be read, and is refused for that; else
/// the text is judged before the ends are.
pub fn cheapest_paths(
    alloc: Global,
    query: &Query,
    text: &[u8],
    is_cut: bool,
) -> Result<PathsAnswer, Memory>
    requires query { IsQuery query.now }
    requires size { length text.now ≤ MAX_INPUT_BYTES }
    ensures { IfOk result (IsAnswer query.now text.now is_cut) }
{
    if is_cut {
        return Ok(PathsAnswer::Refused(refused_line(alloc, 0, "TooBig")?));
    }
    match read(alloc, text) {
        Ok(graph) => of_graph(alloc, query, text, &graph),
        Err(GraphRefused::Memory) => Err(Memory),
        Err(refused) => Ok(PathsAnswer::Refused(graph_refused_line(alloc, &refused)?)),
    }
}

/// The answer to a query over a graph, of which this is the text.
#[tactic(auto, using(crate::proofs::KnownEnds::known_ends, sp_graph::proofs::GraphLemmas::graph_of_any))]
fn of_graph(
    alloc: Global,
    query: &Query,
    _text: &[u8],
    graph: &Graph,
) -> Result<PathsAnswer, Memory>
    requires query { IsQuery query.now }
    requires graph { SaysGraph _text.now graph.now }
    ensures { IfOk result (IsAnswer query.now _text.now false) }
{
    match disjoint(alloc, graph, query.from, query.to, query.paths) {
        Ok(paths) => Ok(PathsAnswer::Found(paths_text(alloc, &paths)?)),
        Err(PathRefused::Fewer { found, cut }) => Ok(PathsAnswer::Fewer(fewer_text(
            alloc,
            query.from,
            query.to,
            found,
            cut.as_slice(),
        )?)),
        Err(PathRefused::Unknown) => Ok(PathsAnswer::Refused(refused_line(alloc, 0, "Range")?)),
        Err(PathRefused::SameEnds) => unreachable!(),
        Err(PathRefused::Memory) => Err(Memory),
    }
}
