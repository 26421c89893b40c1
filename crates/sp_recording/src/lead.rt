// One line at its stage: where it leads, or the stage again where the line is bad.
ghost use Rattle.std.specs.Prelude.{◌≡◌, IfOk, map};
ghost use Rattle.sp_recording.specs.Reading.{IsLead, held_with};

use crate::line_rows::{LineOf, read_line};
use crate::outer_rows::{closing, opening};
use crate::{Line, Opening, Stage};
use sp_base::{Listed, Memory, NodeId};
use sp_lines::LineRefused;
use std::alloc::Global;

/// What comes of a line.
#[derive(Drop)]
pub enum Lead {
    /// The line is good, and the next one stands here.
    To(Stage),
    /// The line is bad. The stage comes back unchanged.
    Bad(Stage),
}

/// Where the words of a line lead from the stage.
pub fn follow(
    alloc: Global,
    total: u64,
    neighbours: &[NodeId],
    stage: Stage,
    words: &[&[u8]],
) -> Result<Lead, Memory>
    ensures { IfOk result (IsLead total neighbours.now stage (map (λ w. w.now) words.now)) }
{
    match stage {
        Stage::Start => Ok(after_start(alloc, total, neighbours, words)),
        Stage::Lines(opening, lines, held) => {
            after_lines(alloc, total, neighbours, opening, lines, held, words)
        }
        Stage::End(opening, lines, closing) => Ok(Lead::Bad(Stage::End(opening, lines, closing))),
    }
}

fn after_start(alloc: Global, total: u64, neighbours: &[NodeId], words: &[&[u8]]) -> Lead
    ensures { IsLead total neighbours.now Stage.Start (map (λ w. w.now) words.now) result }
{
    match opening(total, words) {
        Some(opening) => {
            let bound = opening.bound;
            Lead::To(Stage::Lines(opening, Listed::from_vec(Vec::new(alloc)), bound))
        }
        None => Lead::Bad(Stage::Start),
    }
}

fn after_lines(
    alloc: Global,
    total: u64,
    neighbours: &[NodeId],
    opening: Opening,
    mut lines: Listed<Line>,
    held: u64,
    words: &[&[u8]],
) -> Result<Lead, Memory>
    ensures { IfOk result (IsLead total neighbours.now (Stage.Lines opening lines held) (map (λ w. w.now) words.now)) }
{
    if let Some(closing) = closing(words) {
        return Ok(Lead::To(Stage::End(opening, lines, closing)));
    }
    let at = LineOf {
        alloc,
        total,
        neighbours,
        held,
    };
    match read_line(&at, words) {
        Ok(line) => {
            let bound = held_with(held, &line);
            lines.push(line)?;
            Ok(Lead::To(Stage::Lines(opening, lines, bound)))
        }
        Err(LineRefused::Bad(_)) => Ok(Lead::Bad(Stage::Lines(opening, lines, held))),
        Err(LineRefused::Memory) => Err(Memory),
    }
}

/// The bound that is held after a line.
fn held_with(held: u64, line: &Line) -> u64
    ensures { result ≡ held_with held line.now }
{
    match line {
        Line::Reserve { upto } => *upto,
        _ => held,
    }
}
