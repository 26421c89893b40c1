// A line as words, one space apart.
ghost use Rattle.std.specs.Prelude.{◌≡◌, ◌-◌, ◌<◌, ◌≤◌, ◌^◌, IfOk, IfNone, IfSome, length, map};
ghost use Rattle.sp_text.specs.Spelling.{LinesComeBack, WordsComeBack, words_of};
ghost use Rattle.sp_text.specs.Texts.{GivesInMemory, ReadWordsAreSpelled, SpelledWordsAreRead, bad_place, column_of, is_word_byte, may_follow, words_at};

use crate::{At, Line, TextRefused};
use sp_base::Memory;
use std::alloc::Global;

/// The words of a line: bytes from `!` to `~`, one space apart. `BadWord` exactly where the line isn't so, at the first byte that
/// can't stand there, or after the last byte where the line ends too early.
pub fn words<'a>(alloc: Global, line: Line<'a>) -> Result<Vec<&'a [u8]>, TextRefused>
    requires { length line.bytes.now < 2 ^ 32 }
    ensures { GivesInMemory (λ ws. map (λ w. w.now) ws.items) result (words_at line.entry.number line.entry.bytes.now) }
{
    if let Some(place) = bad_place(line.bytes) {
        return Err(TextRefused::BadWord(At {
            line: line.number,
            column: column_of(place),
        }));
    }
    Ok(split_at_spaces(alloc, line.bytes)?)
}

/// The column of a place, which stands still at the end of its type.
fn column_of(place: usize) -> u32
    requires { place < 2 ^ 32 }
    ensures { result ≡ column_of place }
{
    (place as u32).saturating_add(1)
}

/// The first place of a line whose byte can't stand there, or that after the last where the line ends too early.
fn bad_place(line: &[u8]) -> Option<usize>
    ensures found { IfSome result (λ place. place ≡ bad_place line.now) }
    ensures within { IfSome result (λ place. place ≤ length line.now) }
    ensures none { IfNone result (length line.now < bad_place line.now) }
{
    let mut before = b' ';
    'bytes: for (place, byte) in line.iter().enumerate() {
        if !may_follow(before, *byte) {
            return Some(place);
        }
        before = *byte;
    }
    if may_follow(before, b' ') {
        None
    } else {
        Some(line.len())
    }
}

/// Whether a byte may follow this one.
fn may_follow(before: u8, byte: u8) -> bool
    ensures { result ≡ may_follow before byte }
{
    is_word_byte(byte) || byte == b' ' && is_word_byte(before)
}

fn is_word_byte(byte: u8) -> bool
    ensures { result ≡ is_word_byte byte }
{
    (b'!'..=b'~').contains(&byte)
}

/// What stands between the spaces of a line, whatever its bytes are.
pub fn split_at_spaces<'a>(alloc: Global, line: &'a [u8]) -> Result<Vec<&'a [u8]>, Memory>
    ensures { IfOk result (λ ws. map (λ w. w.now) ws.items ≡ words_of line.now) }
{
    Ok(line.split(|byte| *byte == b' ').collect(alloc)?)
}

/// A law: words without a space, one at least, come back from the line that they are joined to,
/// and a line comes back from its words.
pub fn words_come_back()
    ensures words { WordsComeBack }
    ensures line { LinesComeBack }
{}

/// A law: words of bytes from `!` to `~`, one at least, are read from the line that they are joined to, and only from that line.
pub fn words_have_one_line()
    ensures read { SpelledWordsAreRead }
    ensures spelled { ReadWordsAreSpelled }
{}
