// A text taken apart line by line.
ghost use Rattle.std.specs.Prelude.{◌≡◌, ◌<◌, ◌≤◌, ◌^◌, IfNone, IfSome, length, position};
ghost use Rattle.sp_text.specs.Lines.{BeginsWithLine, IsInOneLine};
ghost use Rattle.sp_text.specs.Texts.{ReadLinesAreSpelled, SpelledLinesAreRead, TakesNext, cut_line, is_newline, long_line};

use crate::{At, Line, TextRefused};
use sp_base::MAX_LINE_BYTES;
use std::marker::Model;

/// The first line of a text and what comes after its newline. None exactly where the text has no newline.
pub fn first_line(text: &[u8]) -> Option<(&[u8], &[u8])>
    ensures found { IfSome result (λ parts. BeginsWithLine text.now parts.0.now parts.1.now) }
    ensures none { IfNone result (IsInOneLine text.now) }
{
    let end = text.iter().position(|byte| *byte == b'\n')?;
    Some((&text[..end], &text[end + 1..]))
}

/// The lines of a text that are still to be given.
#[derive(Debug, Drop)]
pub struct Lines<'a> {
    given: u32,
    rest: &'a [u8],
}

impl<'a> Model for Lines<'a> {
    ghost use Rattle.std.specs.Prelude.{ℕ, ◌+◌, ◌<◌, ◌^◌, List, length};
    ghost use Rattle.sp_text.specs.Unread.{Unread};

    ghost Value = { Unread };

    ghost view = { λ l. record { given = l.given; rest = l.rest.now } };

    ghost invariant = { λ l. l.given + length l.rest.now < 2 ^ 32 };
}

impl<'a> Lines<'a> {
    /// The lines of a text, from the first on.
    pub fn new(text: &'a [u8]) -> Lines<'a>
        requires { length text.now < 2 ^ 32 }
        ensures { result ≡ record { given = 0; rest = text.now } }
    {
        Lines {
            given: 0,
            rest: text,
        }
    }

    /// The next line. None exactly where nothing is left. `LineLong` exactly where the line has more than `MAX_LINE_BYTES` bytes, and
    /// else `Cut` exactly where it has no newline. A call that is refused takes nothing. No more than `MAX_LINE_BYTES + 1` bytes are
    /// searched for the newline.
    pub fn next(&mut self) -> Result<Option<Line<'a>>, TextRefused>
        ensures { TakesNext self.old result self.new }
    {
        if self.rest.is_empty() {
            return Ok(None);
        }
        let number = self.given + 1;
        let searched = self.rest.len().min(MAX_LINE_BYTES + 1);
        let Some(end) = newline(&self.rest[..searched]) else {
            return Err(endless(number, self.rest));
        };
        let bytes = &self.rest[..end];
        self.rest = &self.rest[end + 1..];
        self.given = number;
        Ok(Some(Line { number, bytes }))
    }
}

/// The place of the first newline.
fn newline(bytes: &[u8]) -> Option<usize>
    ensures { result ≡ position is_newline bytes.now }
{
    bytes.iter().position(|byte| *byte == b'\n')
}

/// What is wrong with a line of this number that has no newline as far as it was searched.
fn endless(number: u32, text: &[u8]) -> TextRefused
    ensures long { MAX_LINE_BYTES < length text.now → result ≡ long_line number }
    ensures cut { length text.now ≤ MAX_LINE_BYTES → result ≡ cut_line number text.now }
{
    let left = text.len();
    if left > MAX_LINE_BYTES {
        return TextRefused::LineLong(At {
            line: number,
            column: MAX_LINE_BYTES as u32 + 1,
        });
    }
    TextRefused::Cut(At {
        line: number,
        column: left as u32 + 1,
    })
}

/// A law: a line is read from each text that begins with it, and from no other.
pub fn lines_have_one_text()
    ensures read { SpelledLinesAreRead }
    ensures spelled { ReadLinesAreSpelled }
{}
