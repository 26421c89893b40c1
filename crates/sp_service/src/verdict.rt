// What a verification comes to.
use sp_base::Bytes;

/// What a verification comes to.
#[derive(Clone, Copy, Debug, PartialEq, Eq)]
pub enum Verdict {
    /// Each digest of the recording is that of the node's answer.
    Verified,
    /// A digest isn't that of the node's answer.
    Mismatch,
    /// The input is no configuration with a recording.
    Refused,
}

/// A verdict, and the line that tells it.
#[derive(Drop)]
pub struct Judged {
    pub verdict: Verdict,
    pub line: Bytes,
}
