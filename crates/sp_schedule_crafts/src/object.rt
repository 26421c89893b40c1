// What a crafted object says. A line says no boot: an object has those that its receiver holds of its ends, which are 0 in format 1.
ghost use Rattle.std.specs.Prelude.{◌≡◌, IfOk};
ghost use Rattle.sp_schedule_crafts.specs.Objects.{body_of};
ghost use Rattle.sp_schedule_crafts.specs.declared.object.CraftedObject.TheVariants as crafted;

use sp_base::{Bytes, Memory, NodeId};
use sp_msg::{Ack, Body, Kack, Krel, Mask, Prio, Rel, WeightBody};
use std::alloc::Global;

/// A reliable message.
#[derive(Debug, Drop)]
pub struct CraftedRel {
    pub src: NodeId,
    pub dst: NodeId,
    pub seq: u64,
    pub payload: Bytes,
}

/// An acknowledgement, of either kind of flow.
#[derive(Clone, Copy, Debug)]
pub struct CraftedAck {
    pub src: NodeId,
    pub dst: NodeId,
    pub seq: u64,
}

/// A priority message. Edge e is bit e of its mask, counted from the least.
#[derive(Debug, Drop)]
pub struct CraftedPrio {
    pub src: NodeId,
    pub dst: NodeId,
    pub seq: u64,
    pub prio: u8,
    pub expiry: u64,
    pub mask: Mask,
    pub payload: Bytes,
}

/// A reliable message on paths. Edge e is bit e of its mask, counted from the least.
#[derive(Debug, Drop)]
pub struct CraftedKrel {
    pub src: NodeId,
    pub dst: NodeId,
    pub seq: u64,
    pub mask: Mask,
    pub payload: Bytes,
}

/// A message without its signature and the boots of its ends.
#[derive(Debug, Drop)]
pub enum CraftedObject {
    Rel(CraftedRel),
    Ack(CraftedAck),
    Prio(CraftedPrio),
    Weight(WeightBody),
    Krel(CraftedKrel),
    Kack(CraftedAck),
}

impl CraftedObject {
    /// The message that it is, in memory of its own. No end has a boot.
    pub fn body(&self, alloc: Global) -> Result<Body, Memory>
        ensures { IfOk result (λ body. body ≡ body_of self.now) }
    {
        match self {
            CraftedObject::Rel(rel) => Ok(Body::Rel(Rel {
                src: rel.src,
                dst: rel.dst,
                sboot: 0,
                dboot: 0,
                seq: rel.seq,
                payload: Bytes::copy(alloc, rel.payload.as_slice())?,
            })),
            CraftedObject::Ack(ack) => Ok(Body::Ack(Ack {
                src: ack.src,
                dst: ack.dst,
                sboot: 0,
                dboot: 0,
                seq: ack.seq,
            })),
            CraftedObject::Prio(prio) => Ok(Body::Prio(Prio {
                src: prio.src,
                dst: prio.dst,
                sboot: 0,
                seq: prio.seq,
                prio: prio.prio,
                expiry: prio.expiry,
                mask: prio.mask,
                payload: Bytes::copy(alloc, prio.payload.as_slice())?,
            })),
            CraftedObject::Weight(weight) => Ok(Body::Weight(*weight)),
            CraftedObject::Krel(krel) => krel_body(alloc, krel),
            CraftedObject::Kack(kack) => Ok(Body::Kack(Kack {
                src: kack.src,
                dst: kack.dst,
                sboot: 0,
                dboot: 0,
                seq: kack.seq,
            })),
        }
    }
}

fn krel_body(alloc: Global, krel: &CraftedKrel) -> Result<Body, Memory>
    ensures { IfOk result (λ body. body ≡ body_of (crafted.Krel krel.now)) }
{
    Ok(Body::Krel(Krel {
        src: krel.src,
        dst: krel.dst,
        sboot: 0,
        dboot: 0,
        seq: krel.seq,
        mask: krel.mask,
        payload: Bytes::copy(alloc, krel.payload.as_slice())?,
    }))
}
