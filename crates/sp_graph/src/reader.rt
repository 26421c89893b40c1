// The reading of a whole text, line by line, up to the first bad one.
ghost use Rattle.std.specs.Prelude.{◌≡◌, ◌≢◌, ◌≤◌, ◌^◌, ◌<◌, ◌+◌, IfErr, IfOk, length};
ghost use Rattle.sp_base.specs.declared.limits.TheConstants.{MAX_INPUT_BYTES};
ghost use Rattle.sp_graph.specs.Edges.{IsGraphIn};
ghost use Rattle.sp_graph.specs.Readings.{IsEnd, IsReading, format_of};
ghost use Rattle.sp_graph.specs.Refusals.{UnlessMemory};
ghost use Rattle.sp_graph.specs.Spelling.{graph_text};

use crate::line::follow;
use crate::stage::Stage;
use crate::{Graph, GraphRefused};
use sp_base::{FORMAT_1, FORMAT_2};
use sp_text::{Lines, words};
use std::alloc::Global;

/// The graph that a text of at most 64 MiB says, or its first bad line and why that is refused.
pub fn read(alloc: Global, text: &[u8]) -> Result<Graph, GraphRefused>
    requires { length text.now ≤ MAX_INPUT_BYTES }
    ensures reading { UnlessMemory (IsReading text.now) result }
    ensures graph { IfOk result (λ graph. IsGraphIn (format_of text.now) graph × (text.now ≡ graph_text (format_of text.now) graph)) }
    ensures none { IfErr result (λ refused. refused ≢ GraphRefused.Memory
        → (g : Graph) → IsGraphIn (format_of text.now) g → text.now ≢ graph_text (format_of text.now) g) }
{
    let read = read_lines(alloc, text, format_of(text));
    read
}

/// The same, line by line up to the first bad one.
fn read_lines(alloc: Global, text: &[u8], format: u8) -> Result<Graph, GraphRefused>
    requires short { length text.now ≤ MAX_INPUT_BYTES }
    requires format { format ≡ format_of text.now }
    ensures { UnlessMemory (IsReading text.now) result }
{
    let mut lines = Lines::new(text);
    let mut stage = Stage::Start;
    let mut count = 0;
    'lines: while let Some(line) = lines.next()? {
        let words = words(alloc, line)?;
        count += 1;
        stage = follow(alloc, format, stage, count, words.as_slice())?;
    }
    ending(stage, count)
}

/// The format of a text, by its first line: 2 for `graph 2`, and else 1.
fn format_of(text: &[u8]) -> u8
    ensures { result ≡ format_of text.now }
{
    if text.starts_with(b"graph 2\n") {
        FORMAT_2
    } else {
        FORMAT_1
    }
}

/// How a text ends after so many good lines.
fn ending(stage: Stage, count: u32) -> Result<Graph, GraphRefused>
    requires { count + 1 < 2 ^ 32 }
    ensures ok { IfOk result (λ graph. stage ≡ Stage.End graph) }
    ensures err { IfErr result (λ refused. (refused ≡ GraphRefused.NoEnd (count + 1)) × (IsEnd stage → ⊥)) }
{
    match stage {
        Stage::End(graph) => Ok(graph),
        _ => Err(GraphRefused::NoEnd { line: count + 1 }),
    }
}
