// Why there is no reply.
ghost use Rattle.std.specs.Prelude.{◌≡◌};

use sp_base::Memory;
use std::alloc::AllocError;
use thiserror::Error;

/// Why there is no reply.
#[derive(Clone, Copy, Debug, PartialEq, Eq, Error)]
pub enum AskRefused {
    /// The text is no request. Nothing was called.
    #[error("the text is no request")]
    NoRequest,
    /// The port to ask from couldn't be opened. Nothing was sent.
    #[error("the port can't be opened")]
    Unopened,
    /// All receives were made, and none gave a reply to the request. Normal where the daemon is down or slow.
    #[error("no reply came")]
    Unanswered,
    /// No memory was left. Nothing was called.
    #[error("no memory is left")]
    Memory,
}

impl From<Memory> for AskRefused {
    ghost use Rattle.sp_service_ask.specs.declared.refused.AskRefused.TheVariants as refusals;

    ghost from_gives = { λ _ refused. refused ≡ refusals.Memory };

    fn from(_: Memory) -> Self {
        AskRefused::Memory
    }
}

impl From<AllocError> for AskRefused {
    ghost use Rattle.sp_service_ask.specs.declared.refused.AskRefused.TheVariants as refusals;

    ghost from_gives = { λ _ refused. refused ≡ refusals.Memory };

    fn from(_: AllocError) -> Self {
        AskRefused::Memory
    }
}
