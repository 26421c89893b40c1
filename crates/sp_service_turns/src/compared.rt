// How the lines of a recording come out.
use sp_recording::Digest;

/// The digest of a line against that of the node's answer.
#[derive(Clone, Copy, Debug, PartialEq, Eq)]
pub enum Compared {
    /// The line has no digest.
    Silent,
    Same,
    Other { recorded: Digest, computed: Digest },
}

/// Why lines aren't verified.
#[derive(Clone, Copy, Debug, PartialEq, Eq)]
pub enum LinesRefused {
    /// The place of the first line whose digest isn't that of the node's answer, counted from 0.
    Differs {
        place: u32,
        recorded: Digest,
        computed: Digest,
    },
    Memory,
}

/// Why a recording isn't verified.
#[derive(Clone, Copy, Debug, PartialEq, Eq)]
pub enum VerifyRefused {
    /// The first line whose digest isn't that of the node's answer, and both.
    Mismatch {
        line: u32,
        recorded: Digest,
        computed: Digest,
    },
    /// The first bad line.
    Form {
        line: u32,
    },
    /// No memory was left.
    Memory,
}
