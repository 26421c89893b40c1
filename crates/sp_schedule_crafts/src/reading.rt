// Crafted objects, read: first the row of the table, then its values.
ghost use Rattle.std.specs.Prelude.{◌≡◌, ◌∷◌, ◌&&◌, ◌==◌, Some, codes, find, map, option_map};
ghost use Rattle.sp_base.specs.Refusals.{Gives};
ghost use Rattle.sp_base.specs.Formats.{max_nodes};
ghost use Rattle.sp_lines.specs.Answers.{Reads};
ghost use Rattle.sp_lines.specs.Cells.{number_at, same};
ghost use Rattle.sp_schedule_crafts.specs.Objects.{has_form};
ghost use Rattle.sp_schedule_crafts.specs.Reading.{count as form_count, form_among, form_named, line_for, name};
ghost use Rattle.sp_schedule_crafts.specs.Reading.{name as form_name};

use crate::form::has_form;
use crate::{CraftedAck, CraftedKrel, CraftedObject, CraftedPrio, CraftedRel, ObjectForm};
use sp_base::{
    EdgeId, MAX_PAYLOAD_BYTES, MAX_PRIORITY, MAX_SEQ, MAX_WEIGHT, NodeId, max_edges, max_nodes,
};
use sp_lines::{Fault, LineRefused, bytes, mask, named, ranged};
use sp_msg::{Mask, WeightBody};
use std::alloc::Global;

/// The name of each form, and how many words stand behind it.
const OBJECTS: [(&[u8], usize, ObjectForm); 6] = [
    (b"rel", 4, ObjectForm::Rel),
    (b"ack", 3, ObjectForm::Ack),
    (b"prio", 7, ObjectForm::Prio),
    (b"weight", 4, ObjectForm::Weight),
    (b"krel", 5, ObjectForm::Krel),
    (b"kack", 3, ObjectForm::Kack),
];

/// The form of a format with this name and so many words behind it.
pub fn object_form(format: u8, name: &[u8], count: usize) -> Option<ObjectForm>
    ensures { result ≡ form_named format name.now count }
{
    form_in(&OBJECTS, format, name, count)
}

/// The form that the format has with this name and count, of rows that each have the name and the count of their form.
fn form_in(
    rows: &[(&[u8], usize, ObjectForm)],
    format: u8,
    name: &[u8],
    count: usize,
) -> Option<ObjectForm>
    requires names { map (λ row. row.0.now) rows.now ≡ map (λ row. form_name row.2) rows.now }
    requires counts { map (λ row. row.1) rows.now ≡ map (λ row. form_count row.2) rows.now }
    ensures { result ≡ form_among (map (λ row. row.2) rows.now) format name.now count }
{
    row_of(rows, format, name, count)
}

/// The form of the first of these rows with this name and count that the format has.
fn row_of(
    rows: &[(&[u8], usize, ObjectForm)],
    format: u8,
    name: &[u8],
    count: usize,
) -> Option<ObjectForm>
    ensures { result ≡ option_map (λ row. row.2)
        (find (λ row. (same name.now row.0.now && (count == row.1)) && has_form format row.2) rows.now) }
{
    let row = rows.iter().find(|row| named(name, row.0)
        && count == row.1
        && has_form(format, row.2))?;
    Some(row.2)
}

/// The object of this form in a format with these words behind its name, or the first fault.
pub fn read_object(
    alloc: Global,
    format: u8,
    form: ObjectForm,
    fields: &[&[u8]],
) -> Result<CraftedObject, LineRefused>
    ensures { Reads result (line_for format form (name form ∷ map (λ w. w.now) fields.now)) }
{
    match form {
        ObjectForm::Rel => rel(alloc, format, fields),
        ObjectForm::Ack => ack(format, fields),
        ObjectForm::Prio => prio(alloc, format, fields),
        ObjectForm::Weight => weight(format, fields),
        ObjectForm::Krel => krel(alloc, format, fields),
        ObjectForm::Kack => kack(format, fields),
    }
}

/// `rel S D SEQ HEX`.
#[tactic(auto, unfolding(crate::specs::Reading::read_form))]
fn rel(alloc: Global, format: u8, fields: &[&[u8]]) -> Result<CraftedObject, LineRefused>
    ensures { Reads result (line_for format ObjectForm.Rel (codes "rel" ∷ map (λ w. w.now) fields.now)) }
{
    let [src, dst, seq, payload] = fields else {
        return Err(LineRefused::Bad(Fault::Form));
    };
    let src = any_id(format, src)?;
    let dst = any_id(format, dst)?;
    let seq = ranged(seq, 1, MAX_SEQ)?;
    let payload = bytes(alloc, payload, 0, MAX_PAYLOAD_BYTES)?;
    Ok(CraftedObject::Rel(CraftedRel {
        src,
        dst,
        seq,
        payload,
    }))
}

/// `ack S D SEQ`.
#[tactic(auto, unfolding(crate::specs::Reading::read_form))]
fn ack(format: u8, fields: &[&[u8]]) -> Result<CraftedObject, LineRefused>
    ensures { Reads result (line_for format ObjectForm.Ack (codes "ack" ∷ map (λ w. w.now) fields.now)) }
{
    let [src, dst, seq] = fields else {
        return Err(LineRefused::Bad(Fault::Form));
    };
    let src = any_id(format, src)?;
    let dst = any_id(format, dst)?;
    let seq = ranged(seq, 1, MAX_SEQ)?;
    Ok(CraftedObject::Ack(CraftedAck { src, dst, seq }))
}

/// `prio S D SEQ P EXPIRY MASK HEX`.
#[tactic(auto, unfolding(crate::specs::Reading::read_form))]
fn prio(alloc: Global, format: u8, fields: &[&[u8]]) -> Result<CraftedObject, LineRefused>
    ensures { Reads result (line_for format ObjectForm.Prio (codes "prio" ∷ map (λ w. w.now) fields.now)) }
{
    let [src, dst, seq, prio, expiry, mask_word, payload] = fields else {
        return Err(LineRefused::Bad(Fault::Form));
    };
    let src = any_id(format, src)?;
    let dst = any_id(format, dst)?;
    let seq = ranged(seq, 1, MAX_SEQ)?;
    let prio = ranged(prio, 1, u64::from(MAX_PRIORITY))? as u8;
    let expiry = ranged(expiry, 0, u64::MAX)?;
    let (high, low) = mask(alloc, mask_word, format)?;
    let payload = bytes(alloc, payload, 0, MAX_PAYLOAD_BYTES)?;
    Ok(CraftedObject::Prio(CraftedPrio {
        src,
        dst,
        seq,
        prio,
        expiry,
        mask: Mask { low, high },
        payload,
    }))
}

/// `weight O E SEQ W`.
#[tactic(auto, unfolding(crate::specs::Reading::read_form))]
fn weight(format: u8, fields: &[&[u8]]) -> Result<CraftedObject, LineRefused>
    ensures { Reads result (line_for format ObjectForm.Weight (codes "weight" ∷ map (λ w. w.now) fields.now)) }
{
    let [origin, edge, seq, weight] = fields else {
        return Err(LineRefused::Bad(Fault::Form));
    };
    let origin = any_id(format, origin)?;
    let edge = ranged(edge, 0, u64::from(max_edges(format)) - 1)? as u16;
    let seq = ranged(seq, 1, MAX_SEQ)?;
    let weight = ranged(weight, 1, u64::from(MAX_WEIGHT))? as u32;
    Ok(CraftedObject::Weight(WeightBody {
        origin,
        edge: EdgeId(edge),
        seq,
        weight,
    }))
}

/// `krel S D SEQ MASK HEX`.
#[tactic(auto, unfolding(crate::specs::Reading::read_form))]
fn krel(alloc: Global, format: u8, fields: &[&[u8]]) -> Result<CraftedObject, LineRefused>
    ensures { Reads result (line_for format ObjectForm.Krel (codes "krel" ∷ map (λ w. w.now) fields.now)) }
{
    let [src, dst, seq, mask_word, payload] = fields else {
        return Err(LineRefused::Bad(Fault::Form));
    };
    let src = any_id(format, src)?;
    let dst = any_id(format, dst)?;
    let seq = ranged(seq, 1, MAX_SEQ)?;
    let (high, low) = mask(alloc, mask_word, format)?;
    let payload = bytes(alloc, payload, 0, MAX_PAYLOAD_BYTES)?;
    Ok(CraftedObject::Krel(CraftedKrel {
        src,
        dst,
        seq,
        mask: Mask { low, high },
        payload,
    }))
}

/// `kack S D SEQ`.
#[tactic(auto, unfolding(crate::specs::Reading::read_form))]
fn kack(format: u8, fields: &[&[u8]]) -> Result<CraftedObject, LineRefused>
    ensures { Reads result (line_for format ObjectForm.Kack (codes "kack" ∷ map (λ w. w.now) fields.now)) }
{
    let [src, dst, seq] = fields else {
        return Err(LineRefused::Bad(Fault::Form));
    };
    let src = any_id(format, src)?;
    let dst = any_id(format, dst)?;
    let seq = ranged(seq, 1, MAX_SEQ)?;
    Ok(CraftedObject::Kack(CraftedAck { src, dst, seq }))
}

/// The id of a node, which the graph needn't have.
fn any_id(format: u8, word: &[u8]) -> Result<NodeId, Fault>
    ensures { Gives (λ id. id.0) result (number_at 1 (max_nodes format) word.now) }
{
    let n = ranged(word, 1, u64::from(max_nodes(format)))?;
    Ok(NodeId(n as u8))
}
