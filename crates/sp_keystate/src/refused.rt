// Why a call on a key file didn't give what was asked.
use thiserror::Error;

#[derive(Clone, Copy, Debug, PartialEq, Eq, Error)]
pub enum KeyRefused {
    /// A call of the keeper failed. What the file stands for now has to be opened again.
    #[error("the key file could not be read or written")]
    KeeperFault,
    /// No slot of the file is open.
    #[error("the key file is not formatted")]
    Unformatted,
    /// A slot of the file is open already.
    #[error("the key file is formatted already")]
    Formatted,
    /// The bound, the boot or the serial is at its end.
    #[error("{number} is the last number")]
    Exhausted { number: u64 },
}
