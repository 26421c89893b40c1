// Two stories as schedules, and the reading of schedules and journals.
ghost use Rattle.std.specs.Prelude.{◌≡◌, ◌≤◌, false, IfOk, length};
ghost use Rattle.sp_base.specs.declared.limits.TheConstants.{MAX_EVENTS};

use sp_base::{Listed, MAX_EVENTS, MAX_INPUT_BYTES};
use sp_journal::Entry;
use sp_schedule::{Ending, Stage};
use sp_schedule_events::{Scenario, Timeline};
use std::alloc::Global;
use std::test::Fail;

/// The first message goes from one end of three nodes to the other.
pub(crate) const FIRST_MESSAGE: &str = "schedule 1
seed 0000000000000000000000000000000000000000000000000000000000000000
height 5
bounds 2 4
nodes 3
edge 1 2 10
edge 2 3 10
begin
rel 1 3 6869
poll 2 1
pass 2 1 1
poll 1 2
pass 1 2 1
poll 3 2
pass 3 2 1
take 3 1
poll 2 3
pass 2 3 1
take 3 1
end
";

/// Four nodes in a ring, the second of them compromised: a message goes round it. FRAMES stands for so many frames of a direction.
pub(crate) const ROUND: &str = "schedule 1
seed 0000000000000000000000000000000000000000000000000000000000000000
height 5
bounds 2 4
nodes 4
edge 1 2 10
edge 1 4 10
edge 2 3 10
edge 3 4 10
bad 2
begin
rel 1 3 6869
FRAMES 4 1 7
FRAMES 1 4 7
FRAMES 3 4 7
take 3 1
FRAMES 4 3 7
end
";

/// The schedule with each line of FRAMES written out: each frame is made and passed.
fn written_out(alloc: Global, text: &str) -> Result<String, Fail> {
    let mut whole = String::new(alloc);
    for line in text.lines() {
        match line.strip_prefix("FRAMES ") {
            Some(frames) => push_frames(alloc, &mut whole, frames)?,
            None => {
                whole.push_str(line)?;
                whole.push_str("\n")?;
            }
        }
    }
    Ok(whole)
}

fn push_frames(alloc: Global, whole: &mut String, frames: &str) -> Result<(), Fail> {
    let (direction, count) = frames.rsplit_once(' ').ok_or("no count")?;
    let count: u32 = count.parse()?;
    for number in 0..count.min(100) {
        let lines = format!(in alloc; "poll {direction}\npass {direction} {}\n", number + 1)?;
        whole.push_str(lines.as_str())?;
    }
    Ok(())
}

/// The header and the events of a schedule without epochs.
pub(crate) fn schedule_of(alloc: Global, text: &str) -> Result<(Scenario, Timeline), Fail>
    ensures few { IfOk result (λ read. length read.1 ≤ MAX_EVENTS) }
    ensures plain { IfOk result (λ read. read.0.epochs ≡ false) }
{
    let text = written_out(alloc, text)?;
    if text.len() > MAX_INPUT_BYTES {
        return Err("the text is too long".into());
    }
    let reading = sp_schedule::read(alloc, text.as_bytes(), false)?;
    match (reading.ending, reading.stage) {
        (Ending::Whole, Stage::End(scenario, events)) => {
            if events.len() > MAX_EVENTS {
                return Err("there are too many events".into());
            }
            if scenario.epochs {
                return Err("nodes start and stop".into());
            }
            Ok((scenario, events))
        }
        _ => Err("the text is no schedule".into()),
    }
}

/// The entries of a journal.
pub(crate) fn journal_of(alloc: Global, text: &str) -> Result<Listed<Entry>, Fail> {
    if text.len() >= 0xffff_ffff {
        return Err("the text is too long".into());
    }
    match sp_journal_reading::read(alloc, text.as_bytes()) {
        Ok(journal) => Ok(journal),
        Err(_) => Err("the text is no journal".into()),
    }
}
