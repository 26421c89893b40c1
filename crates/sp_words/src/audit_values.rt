// The auditor's command line of the texts that a parse gave.
ghost use Rattle.std.specs.Prelude.{◌≡◌, ◌≢◌, ◌↔◌, IfNone, IfOk, IfSome, IsTrue};
ghost use Rattle.std.specs.Fmt.{decimal};
ghost use Rattle.clap.specs.Walk.{Text};
ghost use Rattle.sp_base.specs.Finds.{Finds};
ghost use Rattle.sp_words.specs.AuditLines.{AreAuditTextsOf, IsFrom, IsRoundsQuery, alone, file_texts, rounds_texts, run_texts, words_texts};
ghost use Rattle.sp_words.specs.AuditViews.{audit_texts_in};

use crate::audit_given::AuditGiven;
use crate::audit_path::path_of;
use crate::values::is_text;
use crate::{AuditLine, RoundsQuery};
use sp_base::Memory;
use sp_text::number_in;
use std::alloc::Global;

/// The command line of what was given. None exactly where it is of none.
pub fn audit_line_of<'a>(
    alloc: Global,
    given: &AuditGiven<'a>,
) -> Result<Option<AuditLine<'a>>, Memory>
    ensures { IfOk result (Finds (AreAuditTextsOf (audit_texts_in given.now))) }
{
    if let Some((schedule, journal)) = run(given) {
        return Ok(Some(AuditLine::Run { schedule, journal }));
    }
    if let Some(schedule) = file(given, "schedule") {
        return Ok(Some(AuditLine::Schedule { schedule }));
    }
    if let Some(journal) = file(given, "journal") {
        return Ok(Some(AuditLine::Journal { journal }));
    }
    match rounds(alloc, given)? {
        Some(query) => Ok(Some(AuditLine::Rounds(query))),
        None => Ok(None),
    }
}

/// The files of `run SCHEDULE JOURNAL`.
fn run<'a>(given: &AuditGiven<'a>) -> Option<(&'a str, &'a str)>
    ensures { Finds (λ files. audit_texts_in given.now ≡ run_texts files.0.now files.1.now) result }
{
    let schedule = given.first?;
    let journal = given.second?;
    let rest = AuditGiven {
        first: None,
        second: None,
        ..*given
    };
    if is_alone(&rest, "run") {
        Some((schedule, journal))
    } else {
        None
    }
}

/// The file of a command that has one, and no option.
fn file<'a>(given: &AuditGiven<'a>, name: &str) -> Option<&'a str>
    ensures { Finds (λ file. audit_texts_in given.now ≡ file_texts name.now file.now) result }
{
    let file = given.first?;
    let rest = AuditGiven {
        first: None,
        ..*given
    };
    if is_alone(&rest, name) {
        Some(file)
    } else {
        None
    }
}

/// The query of `rounds SCHEDULE --path U,V,W --from N`.
fn rounds<'a>(alloc: Global, given: &AuditGiven<'a>) -> Result<Option<RoundsQuery<'a>>, Memory>
    ensures { IfOk result (Finds (λ query. IsRoundsQuery query × (audit_texts_in given.now ≡ rounds_texts query))) }
{
    let Some(words) = rounds_words(given) else {
        return Ok(None);
    };
    let Some(from) = from_of(words.from) else {
        return Ok(None);
    };
    match path_of(alloc, words.path.as_bytes())? {
        Some(path) => Ok(Some(RoundsQuery {
            schedule: words.schedule,
            path,
            from,
        })),
        None => Ok(None),
    }
}

/// The words of a query of rounds.
#[derive(Clone, Copy, Debug)]
struct RoundsWords<'a> {
    schedule: &'a str,
    path: &'a str,
    from: &'a str,
}

/// The words of `rounds SCHEDULE --path PATH --from FROM`.
fn rounds_words<'a>(given: &AuditGiven<'a>) -> Option<RoundsWords<'a>>
    ensures found { IfSome result (λ w. audit_texts_in given.now ≡ words_texts w.schedule.now w.path.now w.from.now) }
    ensures none { IfNone result ((schedule path from : Text) → audit_texts_in given.now ≢ words_texts schedule path from) }
{
    let schedule = given.first?;
    let path = given.path?;
    let from = given.from?;
    let rest = AuditGiven {
        first: None,
        path: None,
        from: None,
        ..*given
    };
    if is_alone(&rest, "rounds") {
        Some(RoundsWords {
            schedule,
            path,
            from,
        })
    } else {
        None
    }
}

/// The number of an event, from 1.
fn from_of(word: &str) -> Option<u32>
    ensures { Finds (λ n. IsFrom n × (word.now ≡ decimal n)) result }
{
    let from = number_in(word.as_bytes(), 1, u64::from(u32::MAX))?;
    Some(from as u32)
}

/// Whether this command was given, and no file and no option.
fn is_alone(given: &AuditGiven<'_>, name: &str) -> bool
    ensures { IsTrue result ↔ (audit_texts_in given.now ≡ alone name.now) }
{
    is_text(given.command, name)
        && given.first.is_none()
        && given.second.is_none()
        && given.path.is_none()
        && given.from.is_none()
}
