// A copy of an object.
ghost use Rattle.std.specs.Prelude.{◌≡◌, IfOk};

use crate::{CraftedKrel, CraftedObject, CraftedPrio, CraftedRel};
use sp_base::{Bytes, Memory};
use std::alloc::Global;

/// The same object in memory of its own.
pub fn copy_object(alloc: Global, object: &CraftedObject) -> Result<CraftedObject, Memory>
    ensures { IfOk result (λ copied. copied ≡ object.now) }
{
    match object {
        CraftedObject::Prio(prio) => Ok(CraftedObject::Prio(CraftedPrio {
            src: prio.src,
            dst: prio.dst,
            seq: prio.seq,
            prio: prio.prio,
            expiry: prio.expiry,
            mask: prio.mask,
            payload: Bytes::copy(alloc, prio.payload.as_slice())?,
        })),
        CraftedObject::Rel(rel) => Ok(CraftedObject::Rel(CraftedRel {
            src: rel.src,
            dst: rel.dst,
            seq: rel.seq,
            payload: Bytes::copy(alloc, rel.payload.as_slice())?,
        })),
        CraftedObject::Ack(ack) => Ok(CraftedObject::Ack(*ack)),
        CraftedObject::Weight(weight) => Ok(CraftedObject::Weight(*weight)),
        CraftedObject::Krel(krel) => Ok(CraftedObject::Krel(CraftedKrel {
            src: krel.src,
            dst: krel.dst,
            seq: krel.seq,
            mask: krel.mask,
            payload: Bytes::copy(alloc, krel.payload.as_slice())?,
        })),
        CraftedObject::Kack(kack) => Ok(CraftedObject::Kack(*kack)),
    }
}
