// The kinds of messages, as values of their own and as borrowed from the bytes that spell them.
ghost use Rattle.std.specs.Prelude.{◌≡◌};
ghost use Rattle.sp_msg.specs.Views.{as_body, signer_of};

use crate::Mask;
use sp_base::{Bytes, EdgeId, NodeId};

/// The kind of a body, which is its first byte.
pub(crate) const PRIO: u8 = 1;

pub(crate) const REL: u8 = 2;

pub(crate) const ACK: u8 = 3;

pub(crate) const WEIGHT: u8 = 4;

pub(crate) const KREL: u8 = 5;

pub(crate) const KACK: u8 = 6;

pub(crate) const EPOCH: u8 = 7;

/// A priority message. It is dropped after its expiry, and it goes over the edges of its mask.
#[derive(Debug, Drop)]
pub struct Prio {
    pub src: NodeId,
    pub dst: NodeId,
    /// The boot of the source, 0 in format 1.
    pub sboot: u64,
    /// The source's own count of its priority messages, from 1 on.
    pub seq: u64,
    /// 1 to 10, and 10 goes first.
    pub prio: u8,
    /// The last moment at which it counts, in milliseconds of a node's clock.
    pub expiry: u64,
    pub mask: Mask,
    pub payload: Bytes,
}

/// A reliable message: the one of this number in the flow from its source to its destination.
#[derive(Debug, Drop)]
pub struct Rel {
    pub src: NodeId,
    pub dst: NodeId,
    /// The boots of the ends, 0 in format 1.
    pub sboot: u64,
    pub dboot: u64,
    pub seq: u64,
    pub payload: Bytes,
}

/// An acknowledgement: the destination has the flow's messages up to this number.
#[derive(Clone, Copy, Debug, PartialEq, Eq)]
pub struct Ack {
    pub src: NodeId,
    pub dst: NodeId,
    /// The boots of the ends, 0 in format 1.
    pub sboot: u64,
    pub dboot: u64,
    pub seq: u64,
}

/// What a node says of the weight of an edge, under its own count of what it said, from 1 on.
#[derive(Clone, Copy, Debug, PartialEq, Eq)]
pub struct WeightBody {
    pub origin: NodeId,
    pub edge: EdgeId,
    pub seq: u64,
    pub weight: u32,
}

/// A K-path message: the one of this number in the K-path flow from its source to its destination. It goes over the edges of its mask.
/// Format 2 alone has it.
#[derive(Debug, Drop)]
pub struct Krel {
    pub src: NodeId,
    pub dst: NodeId,
    pub sboot: u64,
    pub dboot: u64,
    pub seq: u64,
    pub mask: Mask,
    pub payload: Bytes,
}

/// A receipt: the destination has the K-path flow's messages up to this number. Format 2 alone has it.
#[derive(Clone, Copy, Debug, PartialEq, Eq)]
pub struct Kack {
    pub src: NodeId,
    pub dst: NodeId,
    pub sboot: u64,
    pub dboot: u64,
    pub seq: u64,
}

/// What a node says of its boot. Format 2 alone has it.
#[derive(Clone, Copy, Debug, PartialEq, Eq)]
pub struct Epoch {
    pub origin: NodeId,
    pub boot: u64,
}

/// A message without its signature.
#[derive(Debug, Drop)]
pub enum Body {
    Prio(Prio),
    Rel(Rel),
    Ack(Ack),
    Weight(WeightBody),
    Krel(Krel),
    Kack(Kack),
    Epoch(Epoch),
}

/// A priority message whose payload is borrowed.
#[derive(Clone, Copy, Debug)]
pub struct PrioRef<'a> {
    pub src: NodeId,
    pub dst: NodeId,
    pub sboot: u64,
    pub seq: u64,
    pub prio: u8,
    pub expiry: u64,
    pub mask: Mask,
    pub payload: &'a [u8],
}

/// A reliable message whose payload is borrowed.
#[derive(Clone, Copy, Debug)]
pub struct RelRef<'a> {
    pub src: NodeId,
    pub dst: NodeId,
    pub sboot: u64,
    pub dboot: u64,
    pub seq: u64,
    pub payload: &'a [u8],
}

/// A K-path message whose payload is borrowed.
#[derive(Clone, Copy, Debug)]
pub struct KrelRef<'a> {
    pub src: NodeId,
    pub dst: NodeId,
    pub sboot: u64,
    pub dboot: u64,
    pub seq: u64,
    pub mask: Mask,
    pub payload: &'a [u8],
}

/// A message whose payload is borrowed.
#[derive(Clone, Copy, Debug)]
pub enum BodyRef<'a> {
    Prio(PrioRef<'a>),
    Rel(RelRef<'a>),
    Ack(Ack),
    Weight(WeightBody),
    Krel(KrelRef<'a>),
    Kack(Kack),
    Epoch(Epoch),
}

impl Body {
    /// The same message, its payload borrowed from this one.
    pub fn as_ref(&self) -> BodyRef<'_>
        ensures { as_body result ≡ self.now }
    {
        match self {
            Body::Prio(prio) => BodyRef::Prio(PrioRef {
                src: prio.src,
                dst: prio.dst,
                sboot: prio.sboot,
                seq: prio.seq,
                prio: prio.prio,
                expiry: prio.expiry,
                mask: prio.mask,
                payload: prio.payload.as_slice(),
            }),
            Body::Rel(rel) => BodyRef::Rel(RelRef {
                src: rel.src,
                dst: rel.dst,
                sboot: rel.sboot,
                dboot: rel.dboot,
                seq: rel.seq,
                payload: rel.payload.as_slice(),
            }),
            Body::Ack(ack) => BodyRef::Ack(*ack),
            Body::Weight(weight) => BodyRef::Weight(*weight),
            Body::Krel(krel) => BodyRef::Krel(KrelRef {
                src: krel.src,
                dst: krel.dst,
                sboot: krel.sboot,
                dboot: krel.dboot,
                seq: krel.seq,
                mask: krel.mask,
                payload: krel.payload.as_slice(),
            }),
            Body::Kack(kack) => BodyRef::Kack(*kack),
            Body::Epoch(epoch) => BodyRef::Epoch(*epoch),
        }
    }
}

/// The node whose signature a message bears: the source of a priority, reliable or K-path message, the destination
/// of an acknowledgement or a receipt, and the origin of a weight or a boot.
pub fn signer(body: &BodyRef<'_>) -> NodeId
    ensures { result ≡ signer_of (as_body body.now) }
{
    match body {
        BodyRef::Prio(prio) => prio.src,
        BodyRef::Rel(rel) => rel.src,
        BodyRef::Ack(ack) => ack.dst,
        BodyRef::Weight(weight) => weight.origin,
        BodyRef::Krel(krel) => krel.src,
        BodyRef::Kack(kack) => kack.dst,
        BodyRef::Epoch(epoch) => epoch.origin,
    }
}
