// Files that have more bytes than are read.
use crate::stories::FIRST_MESSAGE;
use sp_auditor::{Cause, MAX_JOURNAL_BYTES, Unfit, Verdict, judge};
use sp_base::MAX_INPUT_BYTES;
use sp_outside::Input;
use sp_schedule::Kind;
use std::alloc::Global;
use std::test::Fail;

/// The verdict on these first bytes of two files.
fn verdict(alloc: Global, schedule: &str, is_cut: bool, journal: &str) -> Result<Verdict, Fail> {
    let schedule = Input {
        bytes: Vec::from_slice(alloc, schedule.as_bytes())?,
        is_cut,
    };
    let journal = Input {
        bytes: Vec::from_slice(alloc, journal.as_bytes())?,
        is_cut: true,
    };
    if schedule.bytes.len() > MAX_INPUT_BYTES || journal.bytes.len() > MAX_JOURNAL_BYTES {
        return Err("a text is too long".into());
    }
    Ok(judge(alloc, &schedule, &journal)?)
}

#[test]
fn a_file_that_goes_on_is_too_long(rt: HostRuntime) -> Result<(), Fail> {
    let long = verdict(rt.alloc(), FIRST_MESSAGE, false, "journal 1\n")?;
    assert!(rt; long == Verdict::Unjudged(Cause::LongJournal), "a journal");
    let both = verdict(rt.alloc(), FIRST_MESSAGE, true, "journal 1\n")?;
    let kind = Kind::TooBig;
    let too_big = Unfit::Bad { line: 0, kind };
    assert!(rt;
        both == Verdict::Unjudged(Cause::Schedule(too_big)),
        "a schedule"
    );
    Ok(())
}
