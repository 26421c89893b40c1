// The reading of a whole text, line by line, up to the first bad one.
ghost use Rattle.std.specs.Prelude.{◌≡◌, ◌≢◌, ◌≤◌, ◌<◌, ◌+◌, ◌^◌, IfOk, length};
ghost use Rattle.sp_base.specs.declared.limits.TheConstants.{MAX_INPUT_BYTES};
ghost use Rattle.sp_recording.specs.Reading.{IsGoodStage, IsReading, at_end, lines_in};

use crate::lead::{Lead, follow};
use crate::{Ending, Reading, Stage};
use sp_base::{Memory, NodeId};
use sp_lines::next_words;
use sp_text::{Lines, TextRefused};
use std::alloc::Global;

/// Reads the recording of a daemon with `total` indexes and these neighbours. What its good lines say is kept, up to the first bad one,
/// whose number counts the lines that stand `before` the text.
pub fn read(
    alloc: Global,
    total: u64,
    neighbours: &[NodeId],
    before: u32,
    text: &[u8],
) -> Result<Reading, Memory>
    requires { before + length text.now ≤ MAX_INPUT_BYTES }
    ensures reading { IfOk result (IsReading total neighbours.now before text.now) }
    ensures good_stage { IfOk result (λ reading. IsGoodStage total neighbours.now reading.stage) }
    ensures few { IfOk result (λ reading. before + length (lines_in reading.stage) ≤ MAX_INPUT_BYTES) }
{
    let mut lines = Lines::new(text);
    let mut stage = Stage::Start;
    let mut count = 0u32;
    'lines: loop {
        let words = match next_words(alloc, &mut lines) {
            Ok(Some(words)) => words,
            Ok(None) => {
                let ending = at_end(&stage, before + count + 1);
                return Ok(Reading { stage, ending });
            }
            Err(refused) => {
                let ending = no_words(refused, before + count + 1)?;
                return Ok(Reading { stage, ending });
            }
        };
        count += 1;
        match follow(alloc, total, neighbours, stage, words.as_slice())? {
            Lead::To(next) => stage = next,
            Lead::Bad(stage) => {
                let ending = Ending::Form {
                    line: before + count,
                };
                return Ok(Reading { stage, ending });
            }
        }
    }
}

/// How a text ends that has nothing left before the line of this number.
fn at_end(stage: &Stage, line: u32) -> Ending
    ensures { result ≡ at_end stage.now line }
{
    match stage {
        Stage::Start => Ending::Form { line },
        _ => Ending::Whole,
    }
}

/// How a text ends at a line of this number that isn't words, unless memory was wanting.
fn no_words(refused: TextRefused, line: u32) -> Result<Ending, Memory>
    ensures { IfOk result (λ ending. (refused ≢ TextRefused.Memory) × (ending ≡ Ending.Form line)) }
{
    match refused {
        TextRefused::Memory => Err(Memory),
        _ => Ok(Ending::Form { line }),
    }
}
