// One line of a journal at its stage: where it leads, or what is wrong with it.
ghost use Rattle.std.specs.Prelude.{◌≡◌, IfOk, map};
ghost use Rattle.sp_lines.specs.Answers.{Reads};
ghost use Rattle.sp_journal_reading.specs.Reading.{closed, effect_more, entry_more, says};

use crate::Stage;
use crate::effect_line::read_effect;
use crate::reply_line::read_entry;
use crate::summary_line::summary;
use sp_base::{Listed, Memory};
use sp_journal::{Entry, Reply};
use sp_lines::{Fault, LineRefused, named};
use sp_msg::Effect;
use std::alloc::Global;

/// Where the words of a line lead from the stage.
pub fn follow(alloc: Global, stage: Stage, words: &[&[u8]]) -> Result<Stage, LineRefused>
    ensures { Reads result (says stage (map (λ w. w.now) words.now)) }
{
    match stage {
        Stage::Start => after_start(alloc, words),
        Stage::Entries(done, last) => after_entries(alloc, done, last, words),
        Stage::End(_) => Err(LineRefused::Bad(Fault::Form)),
    }
}

fn after_start(alloc: Global, words: &[&[u8]]) -> Result<Stage, LineRefused>
    ensures { Reads result (says Stage.Start (map (λ w. w.now) words.now)) }
{
    match words {
        [name, version] if named(name, b"journal") && named(version, b"1") => {
            Ok(Stage::Entries(Listed::from_vec(Vec::new(alloc)), None))
        }
        _ => Err(LineRefused::Bad(Fault::Form)),
    }
}

fn after_entries(
    alloc: Global,
    done: Listed<Entry>,
    last: Option<Entry>,
    words: &[&[u8]],
) -> Result<Stage, LineRefused>
    ensures { Reads result (says (Stage.Entries done last) (map (λ w. w.now) words.now)) }
{
    let [name, fields @ ..] = words else {
        return Err(LineRefused::Bad(Fault::Form));
    };
    if named(name, b"+") {
        let effect = read_effect(alloc, fields)?;
        return with_effect(done, last, effect);
    }
    let journal = closed(done, last)?;
    if named(name, b"summary") {
        return summary(journal, fields);
    }
    let (number, reply) = read_entry(alloc, words)?;
    with_entry(alloc, journal, number, reply)
}

/// The stage with one more effect of the last entry.
fn with_effect(
    done: Listed<Entry>,
    last: Option<Entry>,
    effect: Effect,
) -> Result<Stage, LineRefused>
    ensures { Reads result (effect_more done last effect) }
{
    let Some(mut entry) = last else {
        return Err(LineRefused::Bad(Fault::Form));
    };
    entry.effects.push(effect)?;
    Ok(Stage::Entries(done, Some(entry)))
}

/// All entries.
fn closed(mut done: Listed<Entry>, last: Option<Entry>) -> Result<Listed<Entry>, Memory>
    ensures { IfOk result (λ journal. journal ≡ closed done last) }
{
    let Some(last) = last else {
        return Ok(done);
    };
    done.push(last)?;
    Ok(done)
}

/// The stage with one more entry.
fn with_entry(
    alloc: Global,
    journal: Listed<Entry>,
    number: u32,
    reply: Reply,
) -> Result<Stage, LineRefused>
    ensures { Reads result (entry_more journal (number, reply)) }
{
    if number == 0 || u64::from(number) - 1 != journal.as_slice().len() as u64 {
        return Err(LineRefused::Bad(Fault::Range));
    }
    let effects = Listed::from_vec(Vec::new(alloc));
    Ok(Stage::Entries(journal, Some(Entry { reply, effects })))
}
