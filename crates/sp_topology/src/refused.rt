// Why a topology is refused.
use sp_base::{Memory, Short};
use thiserror::Error;

/// Why a topology is refused: the first thing from the left that is wrong.
#[derive(Clone, Copy, Debug, PartialEq, Eq, Error)]
pub enum TopologyRefused {
    #[error("the document is cut off")]
    Short(Short),
    /// The document doesn't begin with its name.
    #[error("this is no topology")]
    Magic,
    /// The document is of another format.
    #[error("the format is unknown")]
    Format,
    /// The height is neither 5 nor 10.
    #[error("the height is neither 5 nor 10")]
    Height,
    /// Fewer than two nodes.
    #[error("there are too few nodes")]
    TooFew,
    /// More nodes or more edges than there may be.
    #[error("there are too many nodes or edges")]
    TooMany,
    /// An id that no node may have, or one below that before it; an edge with its higher end first, or one below that before it.
    #[error("a node or an edge is out of order")]
    Order,
    /// The same node or the same edge as the one before it.
    #[error("a node or an edge stands twice")]
    Twice,
    /// A key that isn't of two levels, of the topology's height, and with w = 4.
    #[error("a key isn't one of the topology's height")]
    Key,
    /// An edge from a node to itself.
    #[error("an edge joins a node to itself")]
    Loop,
    /// An edge with an end that is no node.
    #[error("an edge has an end that is no node")]
    Unknown,
    /// A weight that no edge may have.
    #[error("a weight is out of range")]
    Weight,
    #[error("no memory is left")]
    Memory,
}

impl From<Short> for TopologyRefused {
    ghost use Rattle.std.specs.Prelude.{◌≡◌};
    ghost use Rattle.sp_topology.specs.declared.refused.TopologyRefused.TheVariants.{Short as IsShort};

    ghost from_gives = { λ short refused. refused ≡ IsShort short };

    fn from(short: Short) -> Self {
        TopologyRefused::Short(short)
    }
}

impl From<Memory> for TopologyRefused {
    ghost use Rattle.std.specs.Prelude.{◌≡◌};
    ghost use Rattle.sp_topology.specs.declared.refused.TopologyRefused.TheVariants.{Memory as NoMemory};

    ghost from_gives = { λ _ refused. refused ≡ NoMemory };

    fn from(_: Memory) -> Self {
        TopologyRefused::Memory
    }
}
