// Why a configuration doesn't fit its signed topology.
use sp_base::Memory;
use sp_topology::TopologyRefused;
use thiserror::Error;

/// Why a configuration doesn't fit its signed topology: the first that applies, in this order.
#[derive(Clone, Copy, Debug, PartialEq, Eq, Error)]
pub enum SetupRefused {
    /// The document's first fault.
    #[error("{0}")]
    Document(TopologyRefused),
    #[error("the signature isn't the administrator's")]
    Signature,
    #[error("the node isn't in the document")]
    Me,
    #[error("the node's key in the document isn't the seed's")]
    Key,
    #[error("the peers aren't the neighbours, each once and ascending, or two have one port")]
    Peer,
    #[error("no memory is left")]
    Memory,
}

impl From<Memory> for SetupRefused {
    ghost use Rattle.std.specs.Prelude.{◌≡◌};
    ghost use Rattle.sp_service.specs.declared.refused.SetupRefused.TheVariants.{Memory as NoMemory};

    ghost from_gives = { λ _ refused. refused ≡ NoMemory };

    fn from(_: Memory) -> Self {
        SetupRefused::Memory
    }
}
