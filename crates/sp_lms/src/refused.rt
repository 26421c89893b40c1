// Why a key isn't made, and why it doesn't sign.
ghost use Rattle.std.specs.Prelude.{◌≡◌};

use std::alloc::AllocError;
use thiserror::Error;

/// Why a key of one tree isn't made, or why it doesn't sign.
#[derive(Clone, Copy, Debug, PartialEq, Eq, Error)]
pub enum LmsRefused {
    /// Each leaf has signed its one message.
    #[error("the key has signed as many messages as it may")]
    Spent,
    /// No memory is left for the tree.
    #[error("no memory is left")]
    Memory,
}

impl From<AllocError> for LmsRefused {
    ghost use Rattle.sp_lms.specs.declared.refused.LmsRefused.{LmsRefused};

    ghost from_gives = { λ _ refused. refused ≡ LmsRefused.Memory };

    fn from(_error: AllocError) -> Self {
        LmsRefused::Memory
    }
}
