// Why a run isn't judged.
use sp_schedule::Kind;

/// Why no run of a schedule is judged.
#[derive(Clone, Copy, Debug, PartialEq, Eq)]
pub enum Unfit {
    /// Its first bad line, counted from 1, and why that is refused. A text of more than 64 MiB is refused at line 0.
    Bad { line: u32, kind: Kind },
    /// Its nodes start and stop by events.
    Epochs,
}

/// Why a run isn't judged.
#[derive(Clone, Copy, Debug, PartialEq, Eq)]
pub enum Cause {
    Schedule(Unfit),
    /// The journal's first bad line, counted from 1. A text that ends early is bad at the line after its last.
    Journal { line: u32 },
    /// The journal has 4,294,967,295 bytes or more.
    LongJournal,
    /// The journal hasn't one entry for each event.
    Unequal { events: u32, entries: u32 },
}
