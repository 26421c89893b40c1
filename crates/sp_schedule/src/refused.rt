// The refusal of a line: why, by which word, and the line that tells it.
ghost use Rattle.std.specs.Prelude.{◌≡◌, ◌++◌, OnOk};
ghost use Rattle.std.specs.String.{string_bytes};
ghost use Rattle.sp_schedule.specs.Refusals.{kind_of, kind_word, refused_line, text_kind};

use crate::Fault;
use sp_base::Memory;
use sp_text::{TextRefused, push_number};

/// Why a line is refused.
#[derive(Clone, Copy, Debug, PartialEq, Eq)]
pub enum Kind {
    /// The line has more than 131,200 bytes.
    LineLong,
    /// The last line has no newline.
    Cut,
    /// The line isn't words one space apart.
    Word,
    /// The line isn't the header's next one, or the header ends too early.
    Header,
    /// The line would be of one event more than a schedule may have.
    TooMany,
    /// No event has a line with this name and so many words.
    Event,
    /// A word isn't a decimal below 2^64.
    Number,
    /// A word isn't bytes in lower-case hexadecimal.
    Hex,
    /// A value is out of its range, or the values don't go together.
    Range,
    /// The text stops before a line `end`.
    NoEnd,
    /// Something stands after the line `end`.
    AfterEnd,
    /// The text is longer than may be read. It is told of line 0.
    TooBig,
}

/// Why a line that waits isn't read.
#[derive(Clone, Copy, Debug, PartialEq, Eq)]
pub enum ScheduleRefused {
    /// The line, counted from 1, is the first bad one.
    Bad { line: u32, kind: Kind },
    /// No memory was left for what the line says.
    Memory,
}

impl Kind {
    /// Its word.
    pub fn word(self) -> &'static str
        ensures { result.now ≡ kind_word self }
    {
        match self {
            Kind::LineLong => "LineLong",
            Kind::Cut => "Cut",
            Kind::Word => "Word",
            Kind::Header => "Header",
            Kind::TooMany => "TooMany",
            Kind::Event => "Event",
            Kind::Number => "Number",
            Kind::Hex => "Hex",
            Kind::Range => "Range",
            Kind::NoEnd => "NoEnd",
            Kind::AfterEnd => "AfterEnd",
            Kind::TooBig => "TooBig",
        }
    }
}

/// The kind of a fault in an event's line.
pub fn kind_of(fault: Fault) -> Kind
    ensures { result ≡ kind_of fault }
{
    match fault {
        Fault::Form => Kind::Event,
        Fault::Number => Kind::Number,
        Fault::Hex => Kind::Hex,
        Fault::Range => Kind::Range,
    }
}

/// The kind of a line that isn't words.
pub fn text_kind(refused: TextRefused) -> Kind
    ensures { result ≡ text_kind refused }
{
    match refused {
        TextRefused::LineLong(_) => Kind::LineLong,
        TextRefused::Cut(_) => Kind::Cut,
        _ => Kind::Word,
    }
}

/// Appends the line `refused LINE KIND`. After an error the text is unspecified.
#[tactic(auto, unfolding(crate::specs::Refusals::refused_line))]
pub fn push_refused(out: &mut String, line: u32, kind: Kind) -> Result<(), Memory>
    ensures { OnOk result (string_bytes out.new ≡ string_bytes out.old ++ refused_line line kind) }
{
    out.push_str("refused ")?;
    push_number(out, u64::from(line))?;
    out.push_str(" ")?;
    out.push_str(kind.word())?;
    out.push_str("\n")?;
    Ok(())
}
