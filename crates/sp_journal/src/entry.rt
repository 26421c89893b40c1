// What was answered to an event, and what the event caused. An entry's value is its reply and the list of its effects, and not the room behind that.
use sp_base::{Bytes, Listed, NodeId};
use sp_msg::Effect;

/// The reply to an event, and the effects of the event in their order.
#[derive(Debug, Drop)]
pub struct Entry {
    pub reply: Reply,
    pub effects: Listed<Effect>,
}

/// What was answered.
#[derive(Debug, Drop)]
pub enum Reply {
    /// A message or a weight was taken, under this number.
    Accepted {
        seq: u64,
    },
    /// The buffer of the flow is full: it stands at this position.
    Full {
        base: u64,
        have: u64,
    },
    /// The signer has no index left.
    Spent {
        index: u64,
    },
    /// The message's expiry is below the time of its source.
    Expired {
        now: u64,
    },
    /// There are fewer disjoint paths than the message should take.
    NoPaths {
        found: u8,
    },
    /// Messages of the flow wait that went on this number of paths, which isn't the one that was asked for.
    Busy {
        paths: u8,
    },
    /// A reliable message was taken from the inbox.
    Payload(Bytes),
    /// A priority message was taken from the inbox.
    PayloadPrio {
        src: NodeId,
        seq: u64,
        payload: Bytes,
    },
    /// The inbox is empty.
    Empty,
    Ticked,
    /// A tick would sign, and its signer has no index left.
    TickSpent {
        index: u64,
    },
    /// A tick would sign, and its signer has no reserved index left.
    TickNotReserved {
        bound: u64,
    },
    /// The weight is below the least that the link may have.
    Low {
        min: u32,
    },
    /// The destination is no other node, or one whose boot this node doesn't hold yet.
    BadEnd,
    /// A frame was made: its number in its direction, its length, and the SHA-256 of its bytes.
    Frame {
        number: u32,
        length: u32,
        digest: [u8; 32],
    },
    /// Bytes arrived: how the link took them, and what each object was answered.
    Arrived {
        link: LinkWord,
        items: Listed<ItemWord>,
    },
    /// The node started, with this boot: its next signature was to have this index, and is that of its boot.
    Started {
        boot: u64,
        index: u64,
    },
    /// The node didn't start: all indexes below this bound are reserved, and its key has no more.
    Exhausted {
        bound: u64,
    },
    Stopped,
    /// The node that was to act doesn't run, or the frame that was to arrive wasn't made since its node didn't.
    Down,
    /// The node took the administrator's document: from now on it runs under this version.
    Adopted {
        version: u32,
    },
    /// The node runs under this version or a later one already.
    DocumentOld,
}

/// How a link took what arrived.
#[derive(Clone, Copy, Debug, PartialEq, Eq)]
pub enum LinkWord {
    TooLong,
    Short { need: u64, left: u64 },
    Magic,
    Version,
    NotForMe,
    BadTag,
    Learned { boot: u64 },
    Stale { boot: u64, counter: u64 },
    Topology { theirs: u32 },
    Section(SectionWord),
    Withdrawn,
    Fresh,
}

/// Why the sections of a frame are refused.
#[derive(Clone, Copy, Debug, PartialEq, Eq)]
pub enum SectionWord {
    Cut,
    Count,
    Object,
    Tail,
}

/// What an object of a fresh frame was answered.
#[derive(Clone, Copy, Debug, PartialEq, Eq)]
pub enum ItemWord {
    Weight(AnswerWord),
    Prio(AnswerWord),
    Ack(AnswerWord),
    Rel(AnswerWord),
    Kack(AnswerWord),
    Krel(AnswerWord),
    Epoch(AnswerWord),
    Document(AnswerWord),
}

/// The word of an answer. Which object may have which, is a matter of the rules.
#[derive(Clone, Copy, Debug, PartialEq, Eq)]
pub enum AnswerWord {
    New,
    Bad,
    BadEnd,
    Epoch,
    OffMask,
    Foreign,
    Low,
    Old,
    Expired,
    Seen,
    Ahead,
    Gap,
    Full,
    InboxFull,
    BadSig,
    Strange,
}
