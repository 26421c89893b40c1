// Why the text of a graph is refused.
use sp_base::Memory;
use sp_text::TextRefused;
use thiserror::Error;

/// Why the text of a graph is refused: what is wrong with its first bad line. Lines are counted from 1.
#[derive(Clone, Copy, Debug, PartialEq, Eq, Error)]
pub enum GraphRefused {
    /// The line is too long or cut off, isn't words one space apart, or has a field that is no number.
    #[error("{0}")]
    Text(TextRefused),
    /// No line with these words may stand here.
    #[error("line {line}: no such line may stand here")]
    Form { line: u32 },
    /// A number is out of its range, or the edge may not come next.
    #[error("line {line}: a number is out of range, or the edge may not come next")]
    Range { line: u32 },
    /// The text stops before a line `end`. This is the line after its last.
    #[error("line {line}: the text stops before its line `end`")]
    NoEnd { line: u32 },
    /// A line stands after the line `end`.
    #[error("line {line}: nothing may stand after the line `end`")]
    AfterEnd { line: u32 },
    #[error("no memory is left")]
    Memory,
}

impl From<TextRefused> for GraphRefused {
    ghost use Rattle.std.specs.Prelude.{◌≡◌};
    ghost use Rattle.sp_graph.specs.Refusals.{of_text};

    ghost from_gives = { λ text refused. refused ≡ of_text text };

    fn from(text: TextRefused) -> Self {
        match text {
            TextRefused::Memory => GraphRefused::Memory,
            text => GraphRefused::Text(text),
        }
    }
}

impl From<Memory> for GraphRefused {
    ghost use Rattle.std.specs.Prelude.{◌≡◌};
    ghost use Rattle.sp_graph.specs.declared.refused.GraphRefused.TheVariants.{Memory as NoMemory};

    ghost from_gives = { λ _ refused. refused ≡ NoMemory };

    fn from(_: Memory) -> Self {
        GraphRefused::Memory
    }
}
