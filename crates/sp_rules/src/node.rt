// What the calls of a node answer.
use crate::answers::Item;
use sp_base::{Listed, Memory, Short};
use sp_frame::SectionRefused;
use sp_msg::Effects;
use thiserror::Error;

/// How many polls and datagrams a node answers in one of its lives.
pub const MAX_CALLS: u64 = 1 << 60;

/// What became of a datagram at its link: the first test that fails, or that it is fresh and was handled.
#[derive(Clone, Copy, Debug, PartialEq, Eq)]
pub enum LinkReply {
    /// It is longer than any datagram of UDP over IPv4.
    TooLong,
    /// It is shorter than the head and the tag of a frame.
    Short(Short),
    /// It doesn't begin with the name of frames.
    Magic,
    /// It is a frame of another version.
    Version,
    /// It isn't from the neighbour to this node. An attack.
    NotForMe,
    /// Its tag isn't that of its bytes under the key of the two. An attack, or a fault of the network.
    BadTag,
    /// It echoes another boot than this node's: the neighbour's boot, which is known from now on. Normal after a start.
    Learned { boot: u64 },
    /// It doesn't come after this boot and counter. Normal where the network repeats or reorders.
    Stale { boot: u64, counter: u64 },
    /// It is fresh, has no document, and its sender runs under another version of the topology. Nothing of it is handled.
    OtherTopology { theirs: u32 },
    /// It is fresh, and its sections leave their grammar. Nothing of it is handled. A fault of the neighbour, or an attack.
    Section(SectionRefused),
    /// It is fresh, has no document, and its edge is withdrawn. Nothing of it is handled.
    Withdrawn,
    /// It is fresh, and each of its objects has an answer, or its document has.
    Fresh,
}

/// The answer to a datagram: what became of it at its link, and the answers to its objects in the order of handling, or to its document.
#[derive(Debug, Drop)]
pub struct Taken {
    pub link: LinkReply,
    pub items: Listed<Item>,
}

/// What a tick did of the acknowledgement that was due. The time and what expired have passed in any case.
#[derive(Clone, Copy, Debug, PartialEq, Eq)]
pub enum TickReply {
    /// It was signed, or none was due.
    Ticked,
    /// One is due, and all indexes of the key are used.
    TickSpent { index: u64 },
    /// One is due, and no index below this bound is left.
    TickNotReserved { bound: u64 },
}

/// What a call did: its answer, and what it caused at the node, in its order.
#[derive(Debug, Drop)]
pub struct Step<T> {
    pub reply: T,
    pub effects: Effects,
}

/// Why a node doesn't answer a poll or a datagram, or isn't made.
#[derive(Clone, Copy, Debug, PartialEq, Eq, Error)]
pub enum NodeRefused {
    /// The other node isn't a neighbour.
    #[error("the other node isn't a neighbour")]
    NotNeighbour,
    /// The node has answered as many polls and datagrams as it may in this life.
    #[error("the node has answered as many calls as it may")]
    Worn,
    /// No memory was left for what the call had to keep.
    #[error("no memory is left")]
    Memory,
}

impl From<Memory> for NodeRefused {
    ghost use Rattle.std.specs.Prelude.{◌≡◌};
    ghost use Rattle.sp_rules.specs.declared.node.NodeRefused.TheVariants.{Memory as no_memory};

    ghost from_gives = { λ _ e. e ≡ no_memory };

    fn from(_: Memory) -> Self {
        NodeRefused::Memory
    }
}
