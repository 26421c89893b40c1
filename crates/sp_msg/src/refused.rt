// Why bytes are no message, and why a message isn't sent.
use sp_base::{Memory, Short};
use thiserror::Error;

/// A field of a message that has a range.
#[derive(Clone, Copy, Debug, PartialEq, Eq)]
pub enum Field {
    Src,
    Dst,
    Seq,
    Prio,
    Mask,
    Length,
    Origin,
    Edge,
    Weight,
}

/// Why bytes are no message.
#[derive(Clone, Copy, Debug, PartialEq, Eq, Error)]
pub enum MsgRefused {
    /// The bytes end within a field.
    #[error("a message is cut short: {0}")]
    Short(Short),
    /// The first byte is no kind of message.
    #[error("a message is of no kind")]
    Kind,
    /// The number in this field isn't in its range.
    #[error("a field of a message is out of its range")]
    Range(Field),
    /// More bytes follow a whole message.
    #[error("bytes follow a message")]
    Tail,
    /// No memory was left for what the call had to keep.
    #[error("no memory is left")]
    Memory,
}

impl From<Short> for MsgRefused {
    ghost use Rattle.std.specs.Prelude.{◌≡◌};
    ghost use Rattle.sp_msg.specs.declared.refused.MsgRefused.TheVariants.{Short as cut};

    ghost from_gives = { λ short e. e ≡ cut short };

    fn from(short: Short) -> Self {
        MsgRefused::Short(short)
    }
}

impl From<Memory> for MsgRefused {
    ghost use Rattle.std.specs.Prelude.{◌≡◌};
    ghost use Rattle.sp_msg.specs.declared.refused.MsgRefused.TheVariants.{Memory as no_memory};

    ghost from_gives = { λ _ e. e ≡ no_memory };

    fn from(_: Memory) -> Self {
        MsgRefused::Memory
    }
}

/// Why a node doesn't send what its client asked for.
#[derive(Clone, Copy, Debug, PartialEq, Eq, Error)]
pub enum SendRefused {
    /// The destination isn't another node of the topology, or one of the two is removed, or no life of the destination is known where nodes run with
    /// epochs. For a weight: the edge isn't there, or is withdrawn.
    #[error("the destination isn't another node")]
    BadEnd,
    /// The flow's buffer is full: it holds the messages after `base`, up to `have`.
    #[error("the buffer of the flow is full, from {base} to {have}")]
    Full { base: u64, have: u64 },
    /// Messages of the flow wait that went on another number of paths.
    #[error("messages on {paths} paths wait")]
    Busy { paths: u8 },
    /// The expiry lies before this moment.
    #[error("the message has expired by {now}")]
    Expired { now: u64 },
    /// Fewer disjoint paths were found than were asked for.
    #[error("only {found} disjoint paths were found")]
    NoPaths { found: u8 },
    /// A weight may not be below the one of the topology.
    #[error("the weight is below {min}")]
    Low { min: u32 },
    /// Every index of the signing key is used.
    #[error("all {index} signatures are made")]
    Spent { index: u64 },
    /// No index of the signing key below this bound is left.
    #[error("no index from {bound} on is reserved")]
    NotReserved { bound: u64 },
    /// No memory was left for the message.
    #[error("no memory is left")]
    Memory,
}
