// Why no edges are given to a message.
use sp_base::Memory;
use thiserror::Error;

/// Why there is no mask.
#[derive(Clone, Copy, Debug, PartialEq, Eq, Error)]
pub enum NoMask {
    /// There are fewer paths that share no node than were asked for: so many, and no more.
    #[error("there are fewer paths that share no node: {found}")]
    Fewer { found: u8 },
    /// No memory was left for the search.
    #[error("no memory is left")]
    Memory,
}

impl From<Memory> for NoMask {
    ghost use Rattle.std.specs.Prelude.{◌≡◌};
    ghost use Rattle.sp_routes.specs.declared.refused.NoMask.TheVariants.{Memory as NoMemory};

    ghost from_gives = { λ _ refused. refused ≡ NoMemory };

    fn from(_: Memory) -> Self {
        NoMask::Memory
    }
}
