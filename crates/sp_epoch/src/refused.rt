// Why a node isn't started, or key states aren't made.
use sp_base::Memory;
use thiserror::Error;

#[derive(Clone, Copy, Debug, PartialEq, Eq, Error)]
pub enum EpochRefused {
    /// All indexes of the node's key are reserved: those below this bound.
    #[error("all indexes below {bound} are reserved")]
    Exhausted { bound: u64 },
    /// No memory was left for a key state of each node.
    #[error("no memory is left")]
    Memory,
}

impl From<Memory> for EpochRefused {
    ghost use Rattle.std.specs.Prelude.{◌≡◌};
    ghost use Rattle.sp_epoch.specs.declared.refused.EpochRefused.TheVariants.{Memory as no_memory};

    ghost from_gives = { λ _ e. e ≡ no_memory };

    fn from(_: Memory) -> Self {
        EpochRefused::Memory
    }
}
