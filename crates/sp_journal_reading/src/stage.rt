// How far a journal was read, and why one is refused.
use sp_base::Listed;
use sp_journal::Entry;

/// What the good lines of a journal said so far.
#[derive(Debug, Drop)]
pub enum Stage {
    /// No line was read.
    Start,
    /// The entries before the last, and the last one, where there is one: its effects may go on.
    Entries(Listed<Entry>, Option<Entry>),
    /// The summary was read.
    End(Listed<Entry>),
}

/// Why a journal isn't read.
#[derive(Clone, Copy, Debug, PartialEq, Eq)]
pub enum JournalRefused {
    /// This line, counted from 1, is the first bad one. A text that ends early is bad at the line after its last.
    Form { line: u32 },
    Memory,
}
