// The lines that tell a verdict, a count, or why there is none.
ghost use Rattle.std.specs.Prelude.{◌≡◌, ◌∷◌, [], IfOk};
ghost use Rattle.std.specs.String.{string_bytes};
ghost use Rattle.std.specs.Fmt.{decimal};
ghost use Rattle.sp_lines.specs.Rows.{line_text};
ghost use Rattle.sp_auditor.specs.Lines.{bad_line, cause_line, count_line, long_line, unfit_line, verdict_line};

use crate::{Cause, Count, Unfit, Verdict};
use sp_base::Memory;
use sp_lines::{push_field, push_name_field};
use sp_schedule::push_refused;
use std::alloc::Global;

/// The line of a verdict.
pub fn verdict_line(alloc: Global, verdict: Verdict) -> Result<String, Memory>
    ensures { IfOk result (λ line. string_bytes line ≡ verdict_line verdict) }
{
    match verdict {
        Verdict::Kept => Ok(String::from_str(alloc, "kept\n")?),
        Verdict::Broken { event } => numbered(alloc, "broken", event),
        Verdict::Unjudged(cause) => cause_line(alloc, cause),
    }
}

/// The line of a count.
pub fn count_line(alloc: Global, count: Count) -> Result<String, Memory>
    ensures { IfOk result (λ line. string_bytes line ≡ count_line count) }
{
    match count {
        Count::Rounds(count) => numbered(alloc, "rounds", count),
        Count::NoPath => Ok(String::from_str(alloc, "path refused\n")?),
        Count::Unjudged(unfit) => unfit_line(alloc, unfit),
    }
}

/// The line of a cause.
fn cause_line(alloc: Global, cause: Cause) -> Result<String, Memory>
    ensures { IfOk result (λ line. string_bytes line ≡ cause_line cause) }
{
    match cause {
        Cause::Schedule(unfit) => unfit_line(alloc, unfit),
        Cause::Journal { line } => bad_line(alloc, line),
        Cause::LongJournal => long_line(alloc),
        Cause::Unequal { events, entries } => unequal_line(alloc, events, entries),
    }
}

/// The line that tells why no run of a schedule is judged.
pub fn unfit_line(alloc: Global, unfit: Unfit) -> Result<String, Memory>
    ensures { IfOk result (λ line. string_bytes line ≡ unfit_line unfit) }
{
    match unfit {
        Unfit::Bad { line, kind } => {
            let mut out = String::from_str(alloc, "schedule ")?;
            push_refused(&mut out, line, kind)?;
            Ok(out)
        }
        Unfit::Epochs => Ok(String::from_str(alloc, "unread epochs\n")?),
    }
}

/// The line of a journal's first bad line.
pub fn bad_line(alloc: Global, line: u32) -> Result<String, Memory>
    ensures { IfOk result (λ out. string_bytes out ≡ bad_line line) }
{
    let mut out = String::from_str(alloc, "journal refused")?;
    push_field(&mut out, u64::from(line))?;
    out.push_str(" Form\n")?;
    Ok(out)
}

/// The line of a journal that is too long.
pub fn long_line(alloc: Global) -> Result<String, Memory>
    ensures { IfOk result (λ line. string_bytes line ≡ long_line) }
{
    Ok(String::from_str(alloc, "journal refused 0 TooBig\n")?)
}

/// The line `unread events M entries N`.
fn unequal_line(alloc: Global, events: u32, entries: u32) -> Result<String, Memory>
    ensures { IfOk result (λ line. string_bytes line ≡ cause_line (Cause.Unequal events entries)) }
{
    let mut out = String::from_str(alloc, "unread events")?;
    push_field(&mut out, u64::from(events))?;
    push_name_field(&mut out, "entries")?;
    push_field(&mut out, u64::from(entries))?;
    out.push_str("\n")?;
    Ok(out)
}

/// A word and a number.
fn numbered(alloc: Global, word: &str, number: u32) -> Result<String, Memory>
    ensures { IfOk result (λ line. string_bytes line ≡ line_text (word.now ∷ decimal number ∷ [])) }
{
    let mut out = String::from_str(alloc, word)?;
    push_field(&mut out, u64::from(number))?;
    out.push_str("\n")?;
    Ok(out)
}
