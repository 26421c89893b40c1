// Why a signer isn't made, and why it doesn't sign.
use thiserror::Error;

/// Why a signer isn't made, or why it doesn't sign.
#[derive(Clone, Copy, Debug, PartialEq, Eq, Error)]
pub enum HssRefused {
    /// Every index is used.
    #[error("all {index} signatures are made")]
    Spent { index: u64 },
    /// No index below the bound is left. `Signer::extend` moves the bound.
    #[error("no index from {bound} on is reserved")]
    NotReserved { bound: u64 },
    /// No memory is left for the trees.
    #[error("no memory is left")]
    Memory,
}
