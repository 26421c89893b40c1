// A schedule, read from a text.
ghost use Rattle.std.specs.Prelude.{◌≤◌, IfOk, length};
ghost use Rattle.sp_auditor.specs.Texts.{IsPlainIn, IsWholeIn, IsWithoutEpochs};
ghost use Rattle.sp_base.specs.declared.limits.TheConstants.{MAX_INPUT_BYTES};

use crate::Unfit;
use sp_base::Memory;
use sp_schedule::{Ending, Kind, Stage, read};
use sp_schedule_events::{Scenario, Timeline};
use std::alloc::Global;

/// What a text is as a schedule.
#[derive(Debug, Drop)]
pub enum Whole {
    Schedule(Scenario, Timeline),
    /// Its first bad line, counted from 1, and why that is refused. A text of more than 64 MiB is refused at line 0.
    Bad { line: u32, kind: Kind },
}

/// What a text is as a schedule whose runs are judged.
#[derive(Debug, Drop)]
pub enum Plain {
    Schedule(Scenario, Timeline),
    Unfit(Unfit),
}

/// The schedule of a text, or why it is none. A text that `is_cut` had more bytes.
pub fn whole_in(alloc: Global, text: &[u8], is_cut: bool) -> Result<Whole, Memory>
    requires { length text.now ≤ MAX_INPUT_BYTES }
    ensures { IfOk result (IsWholeIn (record { text = text.now; is_cut = is_cut })) }
{
    let reading = read(alloc, text, is_cut)?;
    match (reading.ending, reading.stage) {
        (Ending::Refused { line, kind }, _) => Ok(Whole::Bad { line, kind }),
        (Ending::Whole, Stage::End(scenario, events)) => Ok(Whole::Schedule(scenario, events)),
        _ => unreachable!(),
    }
}

/// The same, of a schedule without epochs.
pub fn plain_in(alloc: Global, text: &[u8], is_cut: bool) -> Result<Plain, Memory>
    requires { length text.now ≤ MAX_INPUT_BYTES }
    ensures { IfOk result (IsPlainIn (record { text = text.now; is_cut = is_cut })) }
{
    match whole_in(alloc, text, is_cut)? {
        Whole::Bad { line, kind } => Ok(Plain::Unfit(Unfit::Bad { line, kind })),
        Whole::Schedule(scenario, events) => Ok(without_epochs(scenario, events)),
    }
}

/// A schedule, unless it has epochs.
fn without_epochs(scenario: Scenario, events: Timeline) -> Plain
    ensures { IsWithoutEpochs scenario events result }
{
    if scenario.epochs {
        Plain::Unfit(Unfit::Epochs)
    } else {
        Plain::Schedule(scenario, events)
    }
}
