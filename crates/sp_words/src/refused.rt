// Why words are no command line.
use thiserror::Error;

/// Why words are no command line.
#[derive(Clone, Copy, Debug, PartialEq, Eq, Drop, Error)]
pub enum WordsRefused {
    /// They are no command, or not with just its options, each once and with a value in its range.
    #[error("these words are no command")]
    Usage,
    /// No memory was left for the parse.
    #[error("no memory is left")]
    Memory,
}
