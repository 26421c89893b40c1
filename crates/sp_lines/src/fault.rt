// Why the words of a line are refused.
use sp_base::Memory;

/// What is wrong with the words of a line.
#[derive(Clone, Copy, Debug, PartialEq, Eq)]
pub enum Fault {
    /// They fit no row.
    Form,
    /// A word isn't a decimal below 2^64.
    Number,
    /// A word isn't bytes in lower-case hexadecimal.
    Hex,
    /// A value is out of its range, or the values don't go together.
    Range,
}

/// Why a line isn't read.
#[derive(Clone, Copy, Debug, PartialEq, Eq)]
pub enum LineRefused {
    Bad(Fault),
    Memory,
}

impl From<Memory> for LineRefused {
    ghost use Rattle.std.specs.Prelude.{◌≡◌};
    ghost use Rattle.sp_lines.specs.declared.fault.LineRefused.TheVariants.{Memory as no_memory};

    ghost from_gives = { λ _ refused. refused ≡ no_memory };

    fn from(_: Memory) -> Self {
        LineRefused::Memory
    }
}

impl From<Fault> for LineRefused {
    ghost use Rattle.std.specs.Prelude.{◌≡◌};
    ghost use Rattle.sp_lines.specs.declared.fault.LineRefused.TheVariants.{Bad as bad};

    ghost from_gives = { λ fault refused. refused ≡ bad fault };

    fn from(fault: Fault) -> Self {
        LineRefused::Bad(fault)
    }
}
