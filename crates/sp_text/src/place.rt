// A line of a text, a place in it, and what is wrong there.
use sp_base::Memory;
use std::fmt;
use thiserror::Error;

/// A line of a text, without its newline. Lines are numbered from 1.
#[derive(Clone, Copy, Debug)]
pub struct Line<'a> {
    pub number: u32,
    pub bytes: &'a [u8],
}

/// A place in a text: its line, and the byte in that line. Both are counted from 1.
#[derive(Clone, Copy, Debug, PartialEq, Eq)]
pub struct At {
    pub line: u32,
    pub column: u32,
}

impl fmt::Display for At {
    fn fmt<W: fmt::Write>(&self, f: &mut fmt::Formatter<W>) -> fmt::Result {
        let line = self.line;
        let column = self.column;
        write!(f, "line {line}, column {column}")
    }
}

/// Why a text is refused, and where: at the byte that can't stand there, or at the one after the last where a line ends too early.
#[derive(Clone, Copy, Debug, PartialEq, Eq, Error)]
pub enum TextRefused {
    /// The line is longer than any may be.
    #[error("{0}: the line is too long")]
    LineLong(At),
    /// The text ends before the line does.
    #[error("{0}: the last line has no newline")]
    Cut(At),
    /// The line isn't words that stand one space apart.
    #[error("{0}: no word can go on like this")]
    BadWord(At),
    /// The word is no number.
    #[error("{0}: this is no number")]
    BadNumber(At),
    /// The word is no byte string.
    #[error("{0}: these are no bytes in lower-case hexadecimal")]
    BadHex(At),
    /// No memory was left for what was read.
    #[error("no memory is left")]
    Memory,
}

impl From<Memory> for TextRefused {
    ghost use Rattle.std.specs.Prelude.{◌≡◌};
    ghost use Rattle.sp_text.specs.declared.place.TextRefused.TheVariants.{Memory as NoMemory};

    ghost from_gives = { λ _ refused. refused ≡ NoMemory };

    fn from(_: Memory) -> Self {
        TextRefused::Memory
    }
}
