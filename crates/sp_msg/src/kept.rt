// A message that a node keeps, with its signature.
ghost use Rattle.std.specs.Prelude.{◌≡◌, IfErr, IfOk};
ghost use Rattle.sp_msg.specs.Views.{as_body};

use crate::{Body, BodyRef, Krel, MsgRefused, Prio, Rel};
use sp_base::Bytes;
use std::alloc::Global;

/// A message and its signature.
#[derive(Debug, Drop)]
pub struct Kept {
    pub body: Body,
    pub signature: Bytes,
}

/// A copy of a message that was borrowed, with its signature. It is refused for want of memory alone.
pub fn keep(alloc: Global, body: &BodyRef<'_>, signature: &[u8]) -> Result<Kept, MsgRefused>
    ensures kept { IfOk result (λ kept. kept ≡ record { body = as_body body.now; signature = signature.now }) }
    ensures memory { IfErr result (λ e. e ≡ MsgRefused.Memory) }
{
    Ok(Kept {
        body: copied(alloc, body)?,
        signature: Bytes::copy(alloc, signature)?,
    })
}

impl Kept {
    /// A second one of the same. It is refused for want of memory alone.
    pub fn copy(&self, alloc: Global) -> Result<Kept, MsgRefused>
        ensures kept { IfOk result (λ kept. kept ≡ self.now) }
        ensures memory { IfErr result (λ e. e ≡ MsgRefused.Memory) }
    {
        keep(alloc, &self.body.as_ref(), self.signature.as_slice())
    }
}

/// The message with a payload of its own.
fn copied(alloc: Global, body: &BodyRef<'_>) -> Result<Body, MsgRefused>
    ensures body { IfOk result (λ copied. copied ≡ as_body body.now) }
    ensures memory { IfErr result (λ e. e ≡ MsgRefused.Memory) }
{
    Ok(match body {
        BodyRef::Prio(prio) => Body::Prio(Prio {
            src: prio.src,
            dst: prio.dst,
            sboot: prio.sboot,
            seq: prio.seq,
            prio: prio.prio,
            expiry: prio.expiry,
            mask: prio.mask,
            payload: Bytes::copy(alloc, prio.payload)?,
        }),
        BodyRef::Rel(rel) => Body::Rel(Rel {
            src: rel.src,
            dst: rel.dst,
            sboot: rel.sboot,
            dboot: rel.dboot,
            seq: rel.seq,
            payload: Bytes::copy(alloc, rel.payload)?,
        }),
        BodyRef::Ack(ack) => Body::Ack(*ack),
        BodyRef::Weight(weight) => Body::Weight(*weight),
        BodyRef::Krel(krel) => Body::Krel(Krel {
            src: krel.src,
            dst: krel.dst,
            sboot: krel.sboot,
            dboot: krel.dboot,
            seq: krel.seq,
            mask: krel.mask,
            payload: Bytes::copy(alloc, krel.payload)?,
        }),
        BodyRef::Kack(kack) => Body::Kack(*kack),
        BodyRef::Epoch(epoch) => Body::Epoch(*epoch),
    })
}
