// What a node answers to the objects of a frame, each after its signature was looked at, and to a document.

/// The answer to an update of a link's weight.
#[derive(Clone, Copy, Debug, PartialEq, Eq)]
pub enum WeightAnswer {
    /// The edge isn't in the topology or is withdrawn, or its origin is no end of it, or it is this node's own under a number that it never gave.
    Foreign,
    /// The weight is below the administrator's minimum of the edge.
    Low { min: u32 },
    /// The update that is held of this end has this number, and the new one is at most that. Normal where updates go round.
    Old { held: u64 },
    /// The signature isn't the origin's. An attack.
    BadSig,
    New,
}

/// The answer to a priority message.
#[derive(Clone, Copy, Debug, PartialEq, Eq)]
pub enum PrioAnswer {
    /// Its source or its destination isn't a node or is removed, or both are the same.
    BadEnd,
    /// It names another boot of its source than the one that is held. Normal after a restart. An answer of format 2 alone.
    Epoch,
    /// Its expiry is before the node's time. Normal for a message that took long.
    Expired,
    /// It came before, or is past its source's window, or is this node's own. Normal where messages take several ways.
    Seen,
    /// The signature isn't the source's. An attack.
    BadSig,
    New,
}

/// The answer to an acknowledgement in a slot.
#[derive(Clone, Copy, Debug, PartialEq, Eq)]
pub enum AckAnswer {
    /// Its ends aren't the flow of the slot, or aren't two different nodes, or one is removed.
    BadEnd,
    /// It names another boot of an end than the one that is held. Normal after a restart. An answer of format 2 alone.
    Epoch,
    /// What it acknowledges is acknowledged. Normal where slots overtake one another.
    Old,
    /// It acknowledges what the source hasn't sent, or comes to the destination, which makes it. An attack.
    Ahead,
    /// The signature isn't the destination's. An attack.
    BadSig,
    New,
}

/// The answer to a message in a slot.
#[derive(Clone, Copy, Debug, PartialEq, Eq)]
pub enum RelAnswer {
    /// Its ends aren't the flow of the slot, or aren't two different nodes, or one is removed.
    BadEnd,
    /// It names another boot of an end than the one that is held. Normal after a restart. An answer of format 2 alone.
    Epoch,
    /// It came over an edge that its mask doesn't have. An attack. An answer to a message on paths alone.
    OffMask,
    /// The message is here, or acknowledged. Normal where slots are repeated.
    Old,
    /// The source hasn't sent it. An attack.
    Ahead,
    /// A message before it is missing. Normal where slots are lost.
    Gap,
    /// As many messages wait for their acknowledgement as may.
    Full,
    /// As many messages wait at the destination for its clients as may.
    InboxFull,
    /// The signature isn't the source's. An attack.
    BadSig,
    New,
}

/// The answer to an Epoch object, in which a node says the boot of its life.
#[derive(Clone, Copy, Debug, PartialEq, Eq)]
pub enum EpochAnswer {
    /// Its origin isn't another node.
    BadEnd,
    /// The boot that is held of its origin is at least this one. Normal where these objects go round.
    Old,
    /// The signature isn't the origin's. An attack.
    BadSig,
    New,
}

/// The answer to a document of the administrator.
#[derive(Clone, Copy, Debug, PartialEq, Eq)]
pub enum DocumentAnswer {
    /// It isn't a document. A fault or an attack.
    Bad,
    /// The node runs under this version, and the document's is at most that. Normal where documents come over several ways.
    Old { held: u32 },
    /// The signature isn't the administrator's. An attack.
    BadSig,
    /// It doesn't follow the topology of this node: another format or height, other nodes, keys or edges, or a removed node
    /// returns.
    Strange,
    /// From now on the node runs under this version.
    Adopted { version: u32 },
}

/// The answer to one object of a frame or to its document, by its kind.
#[derive(Clone, Copy, Debug, PartialEq, Eq)]
pub enum Item {
    Weight(WeightAnswer),
    Prio(PrioAnswer),
    Ack(AckAnswer),
    Rel(RelAnswer),
    Kack(AckAnswer),
    Krel(RelAnswer),
    Epoch(EpochAnswer),
    Document(DocumentAnswer),
}
