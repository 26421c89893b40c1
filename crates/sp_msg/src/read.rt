// The message that bytes are, read from the left; its payload is borrowed from them.
ghost use Rattle.std.specs.Prelude.{IfOk, ◌-◌};
ghost use Rattle.sp_base.specs.Formats.{max_edges, max_nodes};
ghost use Rattle.sp_base.specs.Refusals.{Gives};
ghost use Rattle.sp_msg.specs.Bodies.{HasGoodFields, HasGoodFieldsIn, ack_from, boot_field, epoch_fields, epoch_from, flow_fields, high_field, kack_from};
ghost use Rattle.sp_msg.specs.Bodies.{krel_fields, krel_from, later_of_kind, low_field, of_fields, prio_fields, prio_from, read_body, read_body_in, rel_fields};
ghost use Rattle.sp_msg.specs.Bodies.{rel_from, weight_fields, weight_from, with_payload};
ghost use Rattle.sp_msg.specs.Fields.{field_at, free, ranged};
ghost use Rattle.sp_msg.specs.Views.{as_body};
ghost use Rattle.sp_msg.specs.declared.body.BodyRef.TheVariants as borrowed;

use crate::body::{ACK, EPOCH, KACK, KREL, PRIO, REL, WEIGHT};
use crate::{
    Ack, BodyRef, Epoch, Field, Kack, KrelRef, Mask, MsgRefused, PrioRef, RelRef, WeightBody,
};
use sp_base::{
    EdgeId, FORMAT_1, MAX_EDGES, MAX_PAYLOAD_BYTES, MAX_PRIORITY, MAX_SEQ, MAX_WEIGHT, NodeId,
    Reader, max_edges, max_nodes,
};

impl<'a> BodyRef<'a> {
    /// The message of format 1 that all of these bytes are, or what is first wrong from the left. It takes no memory.
    pub fn read(bytes: &'a [u8]) -> Result<BodyRef<'a>, MsgRefused>
        ensures read { Gives as_body result (read_body bytes.now) }
        ensures fields { IfOk result (λ body. HasGoodFields (as_body body)) }
    {
        BodyRef::read_in(bytes, FORMAT_1)
    }

    /// The message of a format that all of these bytes are, or what is first wrong from the left. It takes no memory.
    pub fn read_in(bytes: &'a [u8], format: u8) -> Result<BodyRef<'a>, MsgRefused>
        ensures read { Gives as_body result (read_body_in format bytes.now) }
        ensures fields { IfOk result (λ body. HasGoodFieldsIn format (as_body body)) }
    {
        whole_body(bytes, format)
    }
}

#[tactic(auto, unfolding(crate::specs::Bodies::read_body_in, crate::specs::Bodies::body_at_in))]
fn whole_body<'a>(bytes: &'a [u8], format: u8) -> Result<BodyRef<'a>, MsgRefused>
    ensures { Gives as_body result (read_body_in format bytes.now) }
{
    let mut reader = Reader::new(bytes);
    let kind = reader.u8()?;
    let body = match kind {
        PRIO => BodyRef::Prio(prio_at(&mut reader, format)?),
        REL => BodyRef::Rel(rel_at(&mut reader, format)?),
        ACK => BodyRef::Ack(ack_at(&mut reader, format)?),
        WEIGHT => BodyRef::Weight(weight_at(&mut reader, format)?),
        _ => later_at(&mut reader, kind, format)?,
    };
    if reader.left() != 0 {
        return Err(MsgRefused::Tail);
    }
    Ok(body)
}

/// A message of a kind that format 1 lacks.
fn later_at<'a>(reader: &mut Reader<'a>, kind: u8, format: u8) -> Result<BodyRef<'a>, MsgRefused>
    ensures { Gives (λ b. (as_body b, reader.new)) result (later_of_kind format kind reader.old) }
{
    if format == FORMAT_1 {
        return Err(MsgRefused::Kind);
    }
    Ok(match kind {
        KREL => BodyRef::Krel(krel_at(reader, format)?),
        KACK => BodyRef::Kack(kack_at(reader, format)?),
        EPOCH => BodyRef::Epoch(epoch_at(reader, format)?),
        _ => return Err(MsgRefused::Kind),
    })
}

#[tactic(auto, unfolding(crate::specs::Bodies::with_payload, sp_base::specs::Reading::piece_at))]
fn prio_at<'a>(reader: &mut Reader<'a>, format: u8) -> Result<PrioRef<'a>, MsgRefused>
    ensures { Gives (λ p. (as_body (borrowed.Prio p), reader.new)) result (with_payload (prio_fields format) prio_from reader.old) }
{
    let src = node_at(reader, Field::Src, format)?;
    let dst = node_at(reader, Field::Dst, format)?;
    let sboot = boot_at(reader, format)?;
    let seq = seq_at(reader)?;
    let prio = u8_at(reader, Field::Prio, 1, MAX_PRIORITY)?;
    let expiry = expiry_at(reader)?;
    let high = high_at(reader, format)?;
    let low = low_at(reader, format)?;
    let length = length_at(reader)?;
    let payload = reader.take(length)?;
    Ok(PrioRef {
        src,
        dst,
        sboot,
        seq,
        prio,
        expiry,
        mask: Mask { low, high },
        payload,
    })
}

#[tactic(auto, unfolding(crate::specs::Bodies::with_payload, sp_base::specs::Reading::piece_at))]
fn rel_at<'a>(reader: &mut Reader<'a>, format: u8) -> Result<RelRef<'a>, MsgRefused>
    ensures { Gives (λ r. (as_body (borrowed.Rel r), reader.new)) result (with_payload (rel_fields format) rel_from reader.old) }
{
    let src = node_at(reader, Field::Src, format)?;
    let dst = node_at(reader, Field::Dst, format)?;
    let sboot = boot_at(reader, format)?;
    let dboot = boot_at(reader, format)?;
    let seq = seq_at(reader)?;
    let length = length_at(reader)?;
    let payload = reader.take(length)?;
    Ok(RelRef {
        src,
        dst,
        sboot,
        dboot,
        seq,
        payload,
    })
}

#[tactic(auto, unfolding(crate::specs::Bodies::of_fields))]
fn ack_at(reader: &mut Reader<'_>, format: u8) -> Result<Ack, MsgRefused>
    ensures { Gives (λ a. (as_body (borrowed.Ack a), reader.new)) result (of_fields (flow_fields format) ack_from reader.old) }
{
    let src = node_at(reader, Field::Src, format)?;
    let dst = node_at(reader, Field::Dst, format)?;
    let sboot = boot_at(reader, format)?;
    let dboot = boot_at(reader, format)?;
    let seq = seq_at(reader)?;
    Ok(Ack {
        src,
        dst,
        sboot,
        dboot,
        seq,
    })
}

#[tactic(auto, unfolding(crate::specs::Bodies::of_fields))]
fn weight_at(reader: &mut Reader<'_>, format: u8) -> Result<WeightBody, MsgRefused>
    ensures { Gives (λ w. (as_body (borrowed.Weight w), reader.new)) result (of_fields (weight_fields format) weight_from reader.old) }
{
    let origin = node_at(reader, Field::Origin, format)?;
    let edge = edge_at(reader, format)?;
    let seq = seq_at(reader)?;
    let weight = weight_field_at(reader)?;
    Ok(WeightBody {
        origin,
        edge,
        seq,
        weight,
    })
}

#[tactic(auto, unfolding(crate::specs::Bodies::with_payload, sp_base::specs::Reading::piece_at))]
fn krel_at<'a>(reader: &mut Reader<'a>, format: u8) -> Result<KrelRef<'a>, MsgRefused>
    ensures { Gives (λ r. (as_body (borrowed.Krel r), reader.new)) result (with_payload (krel_fields format) krel_from reader.old) }
{
    let src = node_at(reader, Field::Src, format)?;
    let dst = node_at(reader, Field::Dst, format)?;
    let sboot = boot_at(reader, format)?;
    let dboot = boot_at(reader, format)?;
    let seq = seq_at(reader)?;
    let high = high_at(reader, format)?;
    let low = low_at(reader, format)?;
    let length = length_at(reader)?;
    let payload = reader.take(length)?;
    Ok(KrelRef {
        src,
        dst,
        sboot,
        dboot,
        seq,
        mask: Mask { low, high },
        payload,
    })
}

#[tactic(auto, unfolding(crate::specs::Bodies::of_fields))]
fn kack_at(reader: &mut Reader<'_>, format: u8) -> Result<Kack, MsgRefused>
    ensures { Gives (λ a. (as_body (borrowed.Kack a), reader.new)) result (of_fields (flow_fields format) kack_from reader.old) }
{
    let src = node_at(reader, Field::Src, format)?;
    let dst = node_at(reader, Field::Dst, format)?;
    let sboot = boot_at(reader, format)?;
    let dboot = boot_at(reader, format)?;
    let seq = seq_at(reader)?;
    Ok(Kack {
        src,
        dst,
        sboot,
        dboot,
        seq,
    })
}

#[tactic(auto, unfolding(crate::specs::Bodies::of_fields))]
fn epoch_at(reader: &mut Reader<'_>, format: u8) -> Result<Epoch, MsgRefused>
    ensures { Gives (λ e. (as_body (borrowed.Epoch e), reader.new)) result (of_fields (epoch_fields format) epoch_from reader.old) }
{
    let origin = node_at(reader, Field::Origin, format)?;
    let boot = boot_at(reader, format)?;
    Ok(Epoch { origin, boot })
}

// ---- one field

fn node_at(reader: &mut Reader<'_>, field: Field, format: u8) -> Result<NodeId, MsgRefused>
    ensures { Gives (λ x. (x.0, reader.new)) result (field_at (ranged field 1 1 (max_nodes format)) reader.old) }
{
    let node = u8_at(reader, field, 1, max_nodes(format))?;
    Ok(NodeId(node))
}

#[tactic(auto, unfolding(crate::specs::Fields::field_at))]
fn u8_at(reader: &mut Reader<'_>, field: Field, low: u8, high: u8) -> Result<u8, MsgRefused>
    ensures { Gives (λ x. (x, reader.new)) result (field_at (ranged field 1 low high) reader.old) }
{
    let number = reader.u8()?;
    if number < low || number > high {
        return Err(MsgRefused::Range(field));
    }
    Ok(number)
}

#[tactic(auto, unfolding(crate::specs::Fields::field_at))]
fn seq_at(reader: &mut Reader<'_>) -> Result<u64, MsgRefused>
    ensures { Gives (λ x. (x, reader.new)) result (field_at (ranged Field.Seq 8 1 MAX_SEQ) reader.old) }
{
    let seq = reader.u64()?;
    if seq < 1 || seq > MAX_SEQ {
        return Err(MsgRefused::Range(Field::Seq));
    }
    Ok(seq)
}

#[tactic(auto, unfolding(crate::specs::Fields::field_at))]
fn expiry_at(reader: &mut Reader<'_>) -> Result<u64, MsgRefused>
    ensures { Gives (λ x. (x, reader.new)) result (field_at (free 8) reader.old) }
{
    Ok(reader.u64()?)
}

/// The boot of an end, which format 1 lacks.
#[tactic(auto, unfolding(crate::specs::Fields::field_at), using(crate::proofs::FieldLemmas::no_bytes))]
fn boot_at(reader: &mut Reader<'_>, format: u8) -> Result<u64, MsgRefused>
    ensures { Gives (λ x. (x, reader.new)) result (field_at (boot_field format) reader.old) }
{
    if format == FORMAT_1 {
        return Ok(0);
    }
    Ok(reader.u64()?)
}

/// The high half of a mask, which format 1 lacks.
#[tactic(auto, unfolding(crate::specs::Fields::field_at), using(crate::proofs::FieldLemmas::no_bytes))]
fn high_at(reader: &mut Reader<'_>, format: u8) -> Result<u128, MsgRefused>
    ensures { Gives (λ x. (x, reader.new)) result (field_at (high_field format) reader.old) }
{
    if format == FORMAT_1 {
        return Ok(0);
    }
    Ok(reader.u128()?)
}

/// The low half of a mask, which in format 1 has bits of edges alone.
#[tactic(auto, unfolding(crate::specs::Fields::field_at))]
fn low_at(reader: &mut Reader<'_>, format: u8) -> Result<u128, MsgRefused>
    ensures { Gives (λ x. (x, reader.new)) result (field_at (low_field format) reader.old) }
{
    let low = reader.u128()?;
    if format == FORMAT_1 && low >= 1 << MAX_EDGES {
        return Err(MsgRefused::Range(Field::Mask));
    }
    Ok(low)
}

#[tactic(auto, unfolding(crate::specs::Fields::field_at))]
fn length_at(reader: &mut Reader<'_>) -> Result<usize, MsgRefused>
    ensures { Gives (λ x. (x, reader.new)) result (field_at (ranged Field.Length 2 0 MAX_PAYLOAD_BYTES) reader.old) }
{
    let length = usize::from(reader.u16()?);
    if length > MAX_PAYLOAD_BYTES {
        return Err(MsgRefused::Range(Field::Length));
    }
    Ok(length)
}

#[tactic(auto, unfolding(crate::specs::Fields::field_at))]
fn edge_at(reader: &mut Reader<'_>, format: u8) -> Result<EdgeId, MsgRefused>
    ensures { Gives (λ x. (x.0, reader.new)) result (field_at (ranged Field.Edge 2 0 (max_edges format - 1)) reader.old) }
{
    let edge = reader.u16()?;
    if edge >= max_edges(format) {
        return Err(MsgRefused::Range(Field::Edge));
    }
    Ok(EdgeId(edge))
}

#[tactic(auto, unfolding(crate::specs::Fields::field_at))]
fn weight_field_at(reader: &mut Reader<'_>) -> Result<u32, MsgRefused>
    ensures { Gives (λ x. (x, reader.new)) result (field_at (ranged Field.Weight 4 1 MAX_WEIGHT) reader.old) }
{
    let weight = reader.u32()?;
    if weight < 1 || weight > MAX_WEIGHT {
        return Err(MsgRefused::Range(Field::Weight));
    }
    Ok(weight)
}
