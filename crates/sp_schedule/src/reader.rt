// The reading of a whole text, line by line, up to the first bad one.
ghost use Rattle.std.specs.Prelude.{◌≡◌, ◌≢◌, ◌≤◌, IfOk, length};
ghost use Rattle.sp_base.specs.declared.limits.TheConstants.{MAX_INPUT_BYTES};
ghost use Rattle.sp_schedule.specs.Readings.{IsGoodStage, IsReading, no_words, nothing_left};

use crate::lead::{Lead, follow};
use crate::refused::text_kind;
use crate::{Ending, Kind, Reading, Stage};
use sp_base::Memory;
use sp_lines::next_words;
use sp_text::{Lines, TextRefused};
use std::alloc::Global;

/// Reads a schedule of at most 64 MiB. What its good lines say is kept, up to the first bad one. A text that `is_cut` had more bytes,
/// and is too big where all its lines are good.
pub fn read(alloc: Global, text: &[u8], is_cut: bool) -> Result<Reading, Memory>
    requires { length text.now ≤ MAX_INPUT_BYTES }
    ensures reading { IfOk result (IsReading text.now is_cut) }
    ensures good_stage { IfOk result (λ reading. IsGoodStage reading.stage) }
{
    let mut lines = Lines::new(text);
    let mut stage = Stage::Start;
    let mut count = 0u32;
    'lines: loop {
        let words = match next_words(alloc, &mut lines) {
            Ok(Some(words)) => words,
            Ok(None) => {
                let ending = nothing_left(is_cut, &stage, count + 1);
                return Ok(Reading { stage, ending });
            }
            Err(refused) => return broken_off(is_cut, stage, count + 1, refused),
        };
        count += 1;
        match follow(alloc, stage, words.as_slice()) {
            Lead::To(next, _) => stage = next,
            Lead::Bad(stage, kind) => {
                let ending = Ending::Refused { line: count, kind };
                return Ok(Reading { stage, ending });
            }
            Lead::Unread(stage) => {
                drop(stage);
                return Err(Memory);
            }
        }
    }
}

/// How a text ends before the line of this number, with nothing left.
pub fn nothing_left(is_cut: bool, stage: &Stage, line: u32) -> Ending
    ensures { result ≡ nothing_left is_cut stage.now line }
{
    if is_cut {
        return Ending::Refused {
            line: 0,
            kind: Kind::TooBig,
        };
    }
    match stage {
        Stage::End(..) => Ending::Whole,
        Stage::Events(..) => Ending::Refused {
            line,
            kind: Kind::NoEnd,
        },
        _ => Ending::Refused {
            line,
            kind: Kind::Header,
        },
    }
}

/// What was read of a text whose line of this number isn't words, unless memory was wanting.
fn broken_off(
    is_cut: bool,
    stage: Stage,
    line: u32,
    refused: TextRefused,
) -> Result<Reading, Memory>
    ensures { IfOk result (λ reading. (refused ≢ TextRefused.Memory) × (reading ≡ record { stage = stage; ending = no_words is_cut line refused })) }
{
    let ending = no_words(is_cut, line, refused)?;
    Ok(Reading { stage, ending })
}

/// How a text ends at a line that isn't words, unless memory was wanting.
fn no_words(is_cut: bool, line: u32, refused: TextRefused) -> Result<Ending, Memory>
    ensures { IfOk result (λ ending. (refused ≢ TextRefused.Memory) × (ending ≡ no_words is_cut line refused)) }
{
    match refused {
        TextRefused::Memory => Err(Memory),
        TextRefused::Cut(_) if is_cut => Ok(Ending::Refused {
            line: 0,
            kind: Kind::TooBig,
        }),
        refused => Ok(Ending::Refused {
            line,
            kind: text_kind(refused),
        }),
    }
}
