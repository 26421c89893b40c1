// Why a replay reads no further.
use sp_schedule::Ending;

/// Why no more of a schedule is read.
#[derive(Clone, Copy, Debug, PartialEq, Eq)]
pub enum Halt {
    /// The text ended so, or its first bad line came.
    Read(Ending),
    /// Of an event something is forged. The world names it.
    Forged,
    /// The source failed.
    Source,
    /// The sink failed.
    Sink,
    /// No memory was left.
    Memory,
}
