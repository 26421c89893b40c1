// The bytes of a message: its kind, its fields one after the other, and its payload.
ghost use Rattle.std.specs.Prelude.{◌≡◌, ◌+◌, ◌≤◌, ◌++◌, ◌∷◌, [], length, vec_capacity, vec_len, IfErr, IfOk, IsOk, OnErr, OnOk};
ghost use Rattle.byteorder.specs.Endian.{big_bytes};
ghost use Rattle.sp_base.specs.Formats.{by_format};
ghost use Rattle.sp_msg.specs.Bodies.{HasGoodFields, HasGoodFieldsIn, boot_field, encoded, encoded_in, flow_fields, high_field, low_field};
ghost use Rattle.sp_msg.specs.Fields.{size_of, spelled};
ghost use Rattle.sp_msg.specs.declared.body.Body.TheVariants as bodies;

use crate::body::{ACK, EPOCH, KACK, KREL, PRIO, REL, WEIGHT};
use crate::{Ack, Body, Epoch, Kack, Krel, Mask, MsgRefused, Prio, Rel, WeightBody};
use sp_base::{
    Bytes, FORMAT_1, MAX_PAYLOAD_BYTES, Memory, NodeId, by_format, push_bytes, push_u8, push_u16,
    push_u32, push_u64, push_u128,
};
use std::alloc::{AllocError, Global};

/// How many bytes a message has in format 1 and in format 2, before its payload or in all where it has none. What
/// format 1 lacks has the length there that its table gives.
const PRIO_LEN: usize = 38;

const PRIO_LEN_2: usize = 62;

const REL_LEN: usize = 13;

const REL_LEN_2: usize = 29;

const FLOW_LEN: usize = 11;

const FLOW_LEN_2: usize = 27;

const WEIGHT_LEN: usize = 16;

const KREL_LEN: usize = 29;

const KREL_LEN_2: usize = 61;

const EPOCH_LEN: usize = 2;

const EPOCH_LEN_2: usize = 10;

const MASK_LEN: usize = 16;

const MASK_LEN_2: usize = 32;

/// The bytes of a message of format 1, in memory of their own that is taken at once. It is refused for want of memory alone.
pub fn encode(alloc: Global, body: &Body) -> Result<Bytes, MsgRefused>
    requires { HasGoodFields body.now }
    ensures bytes { IfOk result (λ bytes. bytes ≡ encoded body.now) }
    ensures memory { IfErr result (λ e. e ≡ MsgRefused.Memory) }
{
    encode_in(alloc, body, FORMAT_1)
}

/// The bytes of a message of a format, in memory of their own that is taken at once. It is refused for want of memory alone.
pub fn encode_in(alloc: Global, body: &Body, format: u8) -> Result<Bytes, MsgRefused>
    requires { HasGoodFieldsIn format body.now }
    ensures bytes { IfOk result (λ bytes. bytes ≡ encoded_in format body.now) }
    ensures memory { IfErr result (λ e. e ≡ MsgRefused.Memory) }
{
    let mut out = Vec::new(alloc);
    push_body(&mut out, body, format).map_err(Memory::from)?;
    Ok(Bytes::from_vec(out))
}

/// How many bytes a message has.
pub fn encoded_len(body: &Body, format: u8) -> usize
    requires { HasGoodFieldsIn format body.now }
    ensures { result ≡ length (encoded_in format body.now) }
{
    match body {
        Body::Prio(prio) => by_format(format, PRIO_LEN, PRIO_LEN_2) + prio.payload.as_slice().len(),
        Body::Rel(rel) => by_format(format, REL_LEN, REL_LEN_2) + rel.payload.as_slice().len(),
        Body::Ack(_) => by_format(format, FLOW_LEN, FLOW_LEN_2),
        Body::Weight(_) => WEIGHT_LEN,
        Body::Krel(krel) => by_format(format, KREL_LEN, KREL_LEN_2) + krel.payload.as_slice().len(),
        Body::Kack(_) => by_format(format, FLOW_LEN, FLOW_LEN_2),
        Body::Epoch(_) => by_format(format, EPOCH_LEN, EPOCH_LEN_2),
    }
}

/// Appends the bytes of a message. Where `out` has room for them it takes no memory, so it isn't refused; else it
/// takes at once what is missing. After a refusal `out` has what it had.
pub fn push_body(out: &mut Vec<u8>, body: &Body, format: u8) -> Result<(), AllocError>
    requires { HasGoodFieldsIn format body.now }
    ensures bytes { OnOk result (out.new.items ≡ out.old.items ++ encoded_in format body.now) }
    ensures refused { OnErr result (out.new.items ≡ out.old.items) }
    ensures room { vec_len out.old + length (encoded_in format body.now) ≤ vec_capacity out.old → IsOk result }
    ensures capacity { vec_capacity out.old ≤ vec_capacity out.new }
{
    out.reserve(encoded_len(body, format))?;
    match body {
        Body::Prio(prio) => push_prio(out, prio, format),
        Body::Rel(rel) => push_rel(out, rel, format),
        Body::Ack(ack) => push_ack(out, ack, format),
        Body::Weight(weight) => push_weight(out, weight, format),
        Body::Krel(krel) => push_krel(out, krel, format),
        Body::Kack(kack) => push_kack(out, kack, format),
        Body::Epoch(epoch) => push_epoch(out, epoch, format),
    }
    Ok(())
}

#[tactic(auto, using(crate::proofs::LongLemmas::prio_long))]
fn push_prio(out: &mut Vec<u8>, prio: &Prio, format: u8)
    requires fields { HasGoodFieldsIn format (bodies.Prio prio.now) }
    requires room { vec_len out.old + length (encoded_in format (bodies.Prio prio.now)) ≤ vec_capacity out.old }
    ensures bytes { out.new.items ≡ out.old.items ++ encoded_in format (bodies.Prio prio.now) }
    ensures capacity { vec_capacity out.old ≤ vec_capacity out.new }
{
    push_u8(out, PRIO);
    push_u8(out, prio.src.0);
    push_u8(out, prio.dst.0);
    push_boot(out, prio.sboot, format);
    push_u64(out, prio.seq);
    push_u8(out, prio.prio);
    push_u64(out, prio.expiry);
    push_mask(out, prio.mask, format);
    push_payload(out, prio.payload.as_slice());
}

#[tactic(auto, using(crate::proofs::LongLemmas::rel_long))]
fn push_rel(out: &mut Vec<u8>, rel: &Rel, format: u8)
    requires fields { HasGoodFieldsIn format (bodies.Rel rel.now) }
    requires room { vec_len out.old + length (encoded_in format (bodies.Rel rel.now)) ≤ vec_capacity out.old }
    ensures bytes { out.new.items ≡ out.old.items ++ encoded_in format (bodies.Rel rel.now) }
    ensures capacity { vec_capacity out.old ≤ vec_capacity out.new }
{
    push_flow(
        out, REL, rel.src, rel.dst, rel.sboot, rel.dboot, rel.seq, format,
    );
    push_payload(out, rel.payload.as_slice());
}

#[tactic(auto, using(crate::proofs::LongLemmas::ack_long))]
fn push_ack(out: &mut Vec<u8>, ack: &Ack, format: u8)
    requires room { vec_len out.old + length (encoded_in format (bodies.Ack ack.now)) ≤ vec_capacity out.old }
    ensures bytes { out.new.items ≡ out.old.items ++ encoded_in format (bodies.Ack ack.now) }
    ensures capacity { vec_capacity out.old ≤ vec_capacity out.new }
{
    push_flow(
        out, ACK, ack.src, ack.dst, ack.sboot, ack.dboot, ack.seq, format,
    );
}

fn push_weight(out: &mut Vec<u8>, weight: &WeightBody, format: u8)
    requires room { vec_len out.old + length (encoded_in format (bodies.Weight weight.now)) ≤ vec_capacity out.old }
    ensures bytes { out.new.items ≡ out.old.items ++ encoded_in format (bodies.Weight weight.now) }
    ensures capacity { vec_capacity out.old ≤ vec_capacity out.new }
{
    push_u8(out, WEIGHT);
    push_u8(out, weight.origin.0);
    push_u16(out, weight.edge.0);
    push_u64(out, weight.seq);
    push_u32(out, weight.weight);
}

#[tactic(auto, using(crate::proofs::LongLemmas::krel_long))]
fn push_krel(out: &mut Vec<u8>, krel: &Krel, format: u8)
    requires fields { HasGoodFieldsIn format (bodies.Krel krel.now) }
    requires room { vec_len out.old + length (encoded_in format (bodies.Krel krel.now)) ≤ vec_capacity out.old }
    ensures bytes { out.new.items ≡ out.old.items ++ encoded_in format (bodies.Krel krel.now) }
    ensures capacity { vec_capacity out.old ≤ vec_capacity out.new }
{
    push_flow(
        out, KREL, krel.src, krel.dst, krel.sboot, krel.dboot, krel.seq, format,
    );
    push_mask(out, krel.mask, format);
    push_payload(out, krel.payload.as_slice());
}

#[tactic(auto, using(crate::proofs::LongLemmas::kack_long))]
fn push_kack(out: &mut Vec<u8>, kack: &Kack, format: u8)
    requires room { vec_len out.old + length (encoded_in format (bodies.Kack kack.now)) ≤ vec_capacity out.old }
    ensures bytes { out.new.items ≡ out.old.items ++ encoded_in format (bodies.Kack kack.now) }
    ensures capacity { vec_capacity out.old ≤ vec_capacity out.new }
{
    push_flow(
        out, KACK, kack.src, kack.dst, kack.sboot, kack.dboot, kack.seq, format,
    );
}

#[tactic(auto, using(crate::proofs::LongLemmas::epoch_long))]
fn push_epoch(out: &mut Vec<u8>, epoch: &Epoch, format: u8)
    requires room { vec_len out.old + length (encoded_in format (bodies.Epoch epoch.now)) ≤ vec_capacity out.old }
    ensures bytes { out.new.items ≡ out.old.items ++ encoded_in format (bodies.Epoch epoch.now) }
    ensures capacity { vec_capacity out.old ≤ vec_capacity out.new }
{
    push_u8(out, EPOCH);
    push_u8(out, epoch.origin.0);
    push_boot(out, epoch.boot, format);
}

/// The kind of a message of a flow, its ends, their boots, and its number.
#[tactic(auto, using(crate::proofs::LongLemmas::flow_long))]
fn push_flow(
    out: &mut Vec<u8>,
    kind: u8,
    src: NodeId,
    dst: NodeId,
    sboot: u64,
    dboot: u64,
    seq: u64,
    format: u8,
)
    requires room { vec_len out.old + by_format format FLOW_LEN FLOW_LEN_2 ≤ vec_capacity out.old }
    ensures bytes { out.new.items ≡ out.old.items ++ (kind ∷ spelled (flow_fields format) (src.0 ∷ dst.0 ∷ sboot ∷ dboot ∷ seq ∷ [])) }
    ensures len { vec_len out.new ≡ vec_len out.old + by_format format FLOW_LEN FLOW_LEN_2 }
    ensures capacity { vec_capacity out.old ≤ vec_capacity out.new }
{
    push_u8(out, kind);
    push_u8(out, src.0);
    push_u8(out, dst.0);
    push_boot(out, sboot, format);
    push_boot(out, dboot, format);
    push_u64(out, seq);
}

/// The boot of an end, which format 1 lacks.
fn push_boot(out: &mut Vec<u8>, boot: u64, format: u8)
    requires { vec_len out.old + size_of (boot_field format) ≤ vec_capacity out.old }
    ensures bytes { out.new.items ≡ out.old.items ++ big_bytes (size_of (boot_field format)) boot }
    ensures len { vec_len out.new ≡ vec_len out.old + size_of (boot_field format) }
    ensures capacity { vec_capacity out.old ≤ vec_capacity out.new }
{
    if format != FORMAT_1 {
        push_u64(out, boot);
    }
}

/// The two halves of a mask, of which format 1 lacks the high one.
fn push_mask(out: &mut Vec<u8>, mask: Mask, format: u8)
    requires { vec_len out.old + by_format format MASK_LEN MASK_LEN_2 ≤ vec_capacity out.old }
    ensures bytes { out.new.items ≡ (out.old.items ++ big_bytes (size_of (high_field format)) mask.high) ++ big_bytes (size_of (low_field format)) mask.low }
    ensures len { vec_len out.new ≡ vec_len out.old + by_format format MASK_LEN MASK_LEN_2 }
    ensures capacity { vec_capacity out.old ≤ vec_capacity out.new }
{
    if format != FORMAT_1 {
        push_u128(out, mask.high);
    }
    push_u128(out, mask.low);
}

/// A payload after its length.
fn push_payload(out: &mut Vec<u8>, payload: &[u8])
    requires short { length payload.now ≤ MAX_PAYLOAD_BYTES }
    requires room { vec_len out.old + (2 + length payload.now) ≤ vec_capacity out.old }
    ensures bytes { out.new.items ≡ (out.old.items ++ big_bytes 2 (length payload.now)) ++ payload.now }
    ensures capacity { vec_capacity out.old ≤ vec_capacity out.new }
{
    push_u16(out, payload.len() as u16);
    push_bytes(out, payload);
}
