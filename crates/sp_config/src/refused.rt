// Why a configuration or a draft is refused.
use sp_base::{Bytes, Memory};
use sp_topology::TopologyRefused;
use thiserror::Error;

/// Why a configuration or a draft is refused: the first that applies, in this order.
#[derive(Debug, Drop, Error)]
pub enum ConfigRefused {
    #[error("this is no TOML")]
    Toml,
    /// A key that no table of this kind has: the least one by its bytes, at the top first, then table by table.
    #[error("a key is unknown")]
    Unknown(Bytes),
    /// A key that must be there.
    #[error("a key is missing")]
    Missing(Bytes),
    /// A key whose value is of another type, or out of its range.
    #[error("a value is out of range")]
    Range(Bytes),
    /// The topology's first fault.
    #[error("{0}")]
    Topology(TopologyRefused),
    #[error("no memory is left")]
    Memory,
}

impl From<Memory> for ConfigRefused {
    ghost use Rattle.std.specs.Prelude.{◌≡◌};
    ghost use Rattle.sp_config.specs.declared.refused.ConfigRefused.TheVariants.{Memory as NoMemory};

    ghost from_gives = { λ _ refused. refused ≡ NoMemory };

    fn from(_: Memory) -> Self {
        ConfigRefused::Memory
    }
}
