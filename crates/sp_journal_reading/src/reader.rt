// The reading of a whole journal, line by line, up to the first bad one.
ghost use Rattle.std.specs.Prelude.{◌≡◌, ◌<◌, ◌+◌, ◌^◌, IfOk, length};
ghost use Rattle.sp_journal_reading.specs.Reading.{IsJournal, IsRead, ended, no_words};

use crate::follow::follow;
use crate::{JournalRefused, Stage};
use sp_base::Listed;
use sp_journal::Entry;
use sp_lines::{LineRefused, next_words};
use sp_text::{Lines, TextRefused};
use std::alloc::Global;

/// Reads a journal. `Form` tells the first line that isn't good, or the one after the last where the text ends early.
pub fn read(alloc: Global, text: &[u8]) -> Result<Listed<Entry>, JournalRefused>
    requires { length text.now + 1 < 2 ^ 32 }
    ensures read { IsRead text.now result }
    ensures good { IfOk result IsJournal }
{
    let mut lines = Lines::new(text);
    let mut stage = Stage::Start;
    let mut count = 0u32;
    'lines: loop {
        let words = match next_words(alloc, &mut lines) {
            Ok(Some(words)) => words,
            Ok(None) => return ended(stage, count + 1),
            Err(refused) => return Err(no_words(refused, count + 1)),
        };
        count += 1;
        match follow(alloc, stage, words.as_slice()) {
            Ok(next) => stage = next,
            Err(LineRefused::Bad(_)) => return Err(JournalRefused::Form { line: count }),
            Err(LineRefused::Memory) => return Err(JournalRefused::Memory),
        }
    }
}

/// What a text that ends before the line of this number says.
fn ended(stage: Stage, line: u32) -> Result<Listed<Entry>, JournalRefused>
    ensures { result ≡ ended stage line }
{
    match stage {
        Stage::End(journal) => Ok(journal),
        _ => Err(JournalRefused::Form { line }),
    }
}

/// Why a line of this number isn't words.
fn no_words(refused: TextRefused, line: u32) -> JournalRefused
    ensures { result ≡ no_words refused line }
{
    match refused {
        TextRefused::Memory => JournalRefused::Memory,
        _ => JournalRefused::Form { line },
    }
}
