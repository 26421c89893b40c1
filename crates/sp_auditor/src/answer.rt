// What each command answers for the files that it reads.
ghost use Rattle.std.specs.Prelude.{◌≡◌, ◌≤◌, IfOk, length};
ghost use Rattle.std.specs.String.{string_bytes};
ghost use Rattle.sp_auditor.specs.Answers.{SaysCount, SaysJournal, SaysSchedule, SaysVerdict};
ghost use Rattle.sp_auditor.specs.Lines.{count_status, verdict_status};
ghost use Rattle.sp_auditor.specs.Texts.{file_of};
ghost use Rattle.sp_auditor.specs.declared.journal.TheConstants.{MAX_JOURNAL_BYTES};
ghost use Rattle.sp_base.specs.declared.limits.TheConstants.{MAX_INPUT_BYTES};
ghost use Rattle.sp_words.specs.AuditLines.{IsRoundsQuery};

use crate::count::counted;
use crate::journal::{Told, told_in};
use crate::lines::{bad_line, count_line, long_line, unfit_line, verdict_line};
use crate::schedule::{Whole, whole_in};
use crate::verdict::judge;
use crate::{AuditStatus, Count, RoundsQuery, Unfit, Verdict};
use sp_base::Memory;
use sp_journal::journal_text;
use sp_outside::Input;
use sp_schedule::print;
use std::alloc::Global;

/// What is written, and the status that goes with it.
#[derive(Debug, Drop)]
pub struct Answer {
    pub text: String,
    pub status: AuditStatus,
}

/// Whether the run that two files tell keeps each promise.
pub fn of_run(alloc: Global, schedule: &Input, journal: &Input) -> Result<Answer, Memory>
    requires schedule { length schedule.now.bytes.items ≤ MAX_INPUT_BYTES }
    requires journal { length journal.now.bytes.items ≤ MAX_JOURNAL_BYTES }
    ensures { IfOk result (λ a. SaysVerdict (file_of schedule.now) (file_of journal.now) (string_bytes a.text) a.status) }
{
    let verdict = judge(alloc, schedule, journal)?;
    Ok(Answer {
        text: verdict_line(alloc, verdict)?,
        status: verdict_status(verdict),
    })
}

/// How many rounds of a path follow one after another.
pub fn of_rounds(alloc: Global, schedule: &Input, query: &RoundsQuery<'_>) -> Result<Answer, Memory>
    requires schedule { length schedule.now.bytes.items ≤ MAX_INPUT_BYTES }
    requires query { IsRoundsQuery query.now }
    ensures { IfOk result (λ a. SaysCount query.now.path.items query.now.from (file_of schedule.now) (string_bytes a.text) a.status) }
{
    let count = counted(alloc, schedule, query.path.as_slice(), query.from)?;
    Ok(Answer {
        text: count_line(alloc, count)?,
        status: count_status(count),
    })
}

/// The text of a schedule again, or its first bad line.
pub fn of_schedule(alloc: Global, schedule: &Input) -> Result<Answer, Memory>
    requires { length schedule.now.bytes.items ≤ MAX_INPUT_BYTES }
    ensures { IfOk result (λ a. SaysSchedule (file_of schedule.now) (string_bytes a.text) a.status) }
{
    match whole_in(alloc, schedule.bytes.as_slice(), schedule.is_cut)? {
        Whole::Schedule(scenario, events) => Ok(Answer {
            text: print(alloc, &scenario, events.as_slice())?,
            status: AuditStatus::Done,
        }),
        Whole::Bad { line, kind } => Ok(Answer {
            text: unfit_line(alloc, Unfit::Bad { line, kind })?,
            status: AuditStatus::Refused,
        }),
    }
}

/// The text of a journal again, or its first bad line.
pub fn of_journal(alloc: Global, journal: &Input) -> Result<Answer, Memory>
    requires { length journal.now.bytes.items ≤ MAX_JOURNAL_BYTES }
    ensures { IfOk result (λ a. SaysJournal (file_of journal.now) (string_bytes a.text) a.status) }
{
    match told_in(alloc, journal.bytes.as_slice(), journal.is_cut)? {
        Told::Journal(entries) => Ok(Answer {
            text: journal_text(alloc, entries.as_slice())?,
            status: AuditStatus::Done,
        }),
        Told::Bad { line } => Ok(Answer {
            text: bad_line(alloc, line)?,
            status: AuditStatus::Refused,
        }),
        Told::Long => Ok(Answer {
            text: long_line(alloc)?,
            status: AuditStatus::Refused,
        }),
    }
}

fn verdict_status(verdict: Verdict) -> AuditStatus
    ensures { result ≡ verdict_status verdict }
{
    match verdict {
        Verdict::Kept => AuditStatus::Done,
        Verdict::Broken { .. } => AuditStatus::Broken,
        Verdict::Unjudged(_) => AuditStatus::Refused,
    }
}

fn count_status(count: Count) -> AuditStatus
    ensures { result ≡ count_status count }
{
    match count {
        Count::Rounds(_) => AuditStatus::Done,
        Count::NoPath | Count::Unjudged(_) => AuditStatus::Refused,
    }
}
