// The files of a command line, read from their sources, and what is answered for them.
ghost use Rattle.std.specs.Prelude.{◌≡◌, ◌≤◌, false, IfOk, IsErrOf, OnOk, length, true};
ghost use Rattle.std.specs.String.{string_bytes};
ghost use Rattle.sp_auditor.specs.Answers.{Answers, reads_journal, reads_schedule};
ghost use Rattle.sp_auditor.specs.declared.journal.TheConstants.{MAX_JOURNAL_BYTES};
ghost use Rattle.sp_base.specs.declared.limits.TheConstants.{MAX_INPUT_BYTES};
ghost use Rattle.sp_outside.specs.Causes.{Rose};
ghost use Rattle.sp_outside.specs.Streams.{IsInput};
ghost use Rattle.sp_words.specs.AuditLines.{IsInRange};

use crate::answer::{of_journal, of_rounds, of_run, of_schedule};
use crate::{Answer, AuditLine, MAX_JOURNAL_BYTES};
use sp_base::{MAX_INPUT_BYTES, Memory};
use sp_outside::{Input, ReadRefused, Source, read_up_to};
use std::alloc::Global;

/// Why nothing is answered.
#[derive(Clone, Copy, Debug, PartialEq, Eq)]
pub enum Unread {
    /// Reading the schedule failed.
    Schedule,
    /// Reading the journal failed.
    Journal,
    /// No memory was left.
    Memory,
}

impl From<Memory> for Unread {
    ghost use Rattle.std.specs.Prelude.{◌≡◌};
    ghost use Rattle.sp_auditor.specs.declared.reading.Unread.TheVariants.{Memory as no_memory};

    ghost from_gives = { λ _ e. e ≡ no_memory };

    fn from(_: Memory) -> Self {
        Unread::Memory
    }
}

/// What a command line's files are answered. A file that it doesn't name isn't read.
pub fn answered<S: Source, J: Source>(
    alloc: Global,
    line: &AuditLine<'_>,
    schedule: &mut S,
    journal: &mut J,
) -> Result<Answer, Unread>
    requires { IsInRange line.now }
    ensures answers { IfOk result (λ a. Answers line.now (S.left schedule.old) (J.left journal.old) (string_bytes a.text) a.status) }
    ensures schedule { IsErrOf result Unread.Schedule
        → (reads_schedule line.now ≡ true) × Rose (S.faults schedule.old) (S.faults schedule.new) × (J.faults journal.new ≡ J.faults journal.old) }
    ensures journal { IsErrOf result Unread.Journal
        → (reads_journal line.now ≡ true) × (S.faults schedule.new ≡ S.faults schedule.old) × Rose (J.faults journal.old) (J.faults journal.new) }
    ensures fine { OnOk result ((S.faults schedule.new ≡ S.faults schedule.old) × (J.faults journal.new ≡ J.faults journal.old)) }
    ensures memory { IsErrOf result Unread.Memory → (S.faults schedule.new ≡ S.faults schedule.old) × (J.faults journal.new ≡ J.faults journal.old) }
    ensures no_schedule { reads_schedule line.now ≡ false → schedule.new ≡ schedule.old }
    ensures no_journal { reads_journal line.now ≡ false → journal.new ≡ journal.old }
{
    match line {
        AuditLine::Run { .. } => {
            let schedule = schedule_of(alloc, schedule)?;
            let journal = journal_of(alloc, journal)?;
            Ok(of_run(alloc, &schedule, &journal)?)
        }
        AuditLine::Rounds(query) => {
            let schedule = schedule_of(alloc, schedule)?;
            Ok(of_rounds(alloc, &schedule, query)?)
        }
        AuditLine::Schedule { .. } => {
            let schedule = schedule_of(alloc, schedule)?;
            Ok(of_schedule(alloc, &schedule)?)
        }
        AuditLine::Journal { .. } => {
            let journal = journal_of(alloc, journal)?;
            Ok(of_journal(alloc, &journal)?)
        }
    }
}

/// The bytes of a schedule's file, as many as are read.
fn schedule_of<S: Source>(alloc: Global, source: &mut S) -> Result<Input, Unread>
    ensures bytes { IfOk result (λ input. IsInput (S.left source.old) MAX_INPUT_BYTES input.bytes.items input.is_cut) }
    ensures within { IfOk result (λ input. length input.bytes.items ≤ MAX_INPUT_BYTES) }
    ensures failed { IsErrOf result Unread.Schedule → Rose (S.faults source.old) (S.faults source.new) }
    ensures fine { OnOk result (S.faults source.new ≡ S.faults source.old) }
    ensures memory { IsErrOf result Unread.Memory → S.faults source.new ≡ S.faults source.old }
    ensures other { IsErrOf result Unread.Journal → ⊥ }
{
    match read_up_to(alloc, source, MAX_INPUT_BYTES) {
        Ok(input) => Ok(input),
        Err(ReadRefused::Failed) => Err(Unread::Schedule),
        Err(ReadRefused::Memory) => Err(Unread::Memory),
    }
}

/// The bytes of a journal's file, as many as are read.
fn journal_of<J: Source>(alloc: Global, source: &mut J) -> Result<Input, Unread>
    ensures bytes { IfOk result (λ input. IsInput (J.left source.old) MAX_JOURNAL_BYTES input.bytes.items input.is_cut) }
    ensures within { IfOk result (λ input. length input.bytes.items ≤ MAX_JOURNAL_BYTES) }
    ensures failed { IsErrOf result Unread.Journal → Rose (J.faults source.old) (J.faults source.new) }
    ensures fine { OnOk result (J.faults source.new ≡ J.faults source.old) }
    ensures memory { IsErrOf result Unread.Memory → J.faults source.new ≡ J.faults source.old }
    ensures other { IsErrOf result Unread.Schedule → ⊥ }
{
    match read_up_to(alloc, source, MAX_JOURNAL_BYTES) {
        Ok(input) => Ok(input),
        Err(ReadRefused::Failed) => Err(Unread::Journal),
        Err(ReadRefused::Memory) => Err(Unread::Memory),
    }
}
