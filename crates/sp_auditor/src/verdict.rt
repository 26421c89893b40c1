// The verdict on the run that two texts tell.
ghost use Rattle.std.specs.Prelude.{◌≡◌, ◌<◌, ◌≤◌, ◌^◌, false, IfOk, length};
ghost use Rattle.sp_auditor.specs.Texts.{File, TellsJournal, TellsPlain, file_of};
ghost use Rattle.sp_auditor.specs.Verdicts.{IsVerdict};
ghost use Rattle.sp_auditor.specs.declared.journal.TheConstants.{MAX_JOURNAL_BYTES};
ghost use Rattle.sp_base.specs.declared.limits.TheConstants.{MAX_EVENTS, MAX_INPUT_BYTES};

use crate::Cause;
use crate::journal::{Told, told_in};
use crate::schedule::{Plain, plain_in};
use sp_audit::{AuditRefused, audit};
use sp_base::Memory;
use sp_journal::Entry;
use sp_outside::Input;
use sp_schedule_events::{Event, Scenario};
use std::alloc::Global;

/// What is said of a run.
#[derive(Clone, Copy, Debug, PartialEq, Eq)]
pub enum Verdict {
    /// No event breaks a promise.
    Kept,
    /// The event of this number, counted from 1, is the first that breaks a promise.
    Broken { event: u32 },
    /// The run isn't judged.
    Unjudged(Cause),
}

/// The verdict on the run that a schedule and a journal tell.
pub fn judge(alloc: Global, schedule: &Input, journal: &Input) -> Result<Verdict, Memory>
    requires schedule { length schedule.now.bytes.items ≤ MAX_INPUT_BYTES }
    requires journal { length journal.now.bytes.items ≤ MAX_JOURNAL_BYTES }
    ensures { IfOk result (IsVerdict (file_of schedule.now) (file_of journal.now)) }
{
    match plain_in(alloc, schedule.bytes.as_slice(), schedule.is_cut)? {
        Plain::Unfit(unfit) => Ok(Verdict::Unjudged(Cause::Schedule(unfit))),
        Plain::Schedule(scenario, events) => {
            of_schedule(alloc, &scenario, events.as_slice(), journal)
        }
    }
}

/// The verdict on the run of a schedule that a journal tells.
fn of_schedule(
    alloc: Global,
    scenario: &Scenario,
    events: &[Event],
    journal: &Input,
) -> Result<Verdict, Memory>
    requires plain { scenario.now.epochs ≡ false }
    requires few { length events.now ≤ MAX_EVENTS }
    requires journal { length journal.now.bytes.items ≤ MAX_JOURNAL_BYTES }
    ensures { IfOk result (λ verdict. (s : File) → TellsPlain s scenario.now events.now → IsVerdict s (file_of journal.now) verdict) }
{
    match told_in(alloc, journal.bytes.as_slice(), journal.is_cut)? {
        Told::Long => Ok(Verdict::Unjudged(Cause::LongJournal)),
        Told::Bad { line } => Ok(Verdict::Unjudged(Cause::Journal { line })),
        Told::Journal(entries) => of_run(alloc, scenario, events, entries.as_slice()),
    }
}

/// The verdict on a run.
fn of_run(
    alloc: Global,
    scenario: &Scenario,
    events: &[Event],
    entries: &[Entry],
) -> Result<Verdict, Memory>
    requires plain { scenario.now.epochs ≡ false }
    requires few { length events.now ≤ MAX_EVENTS }
    requires entries { length entries.now < 2 ^ 32 }
    ensures { IfOk result (λ verdict. (s j : File) → TellsPlain s scenario.now events.now → TellsJournal j entries.now → IsVerdict s j verdict) }
{
    if events.len() != entries.len() {
        return Ok(Verdict::Unjudged(Cause::Unequal {
            events: events.len() as u32,
            entries: entries.len() as u32,
        }));
    }
    match audit(alloc, scenario, events, entries) {
        Ok(()) => Ok(Verdict::Kept),
        Err(AuditRefused::Broken { event }) => Ok(Verdict::Broken { event }),
        Err(AuditRefused::Memory) => Err(Memory),
        Err(AuditRefused::NotPath) => unreachable!(),
    }
}
