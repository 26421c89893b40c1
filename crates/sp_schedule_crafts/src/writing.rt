// Crafted objects, written.
ghost use Rattle.std.specs.Prelude.{◌≡◌, ◌++◌, ◌∷◌, [], OnOk};
ghost use Rattle.std.specs.Fmt.{decimal};
ghost use Rattle.std.specs.String.{string_bytes};
ghost use Rattle.sp_text.specs.Spelling.{hex_word};
ghost use Rattle.sp_lines.specs.Cells.{mask_word};
ghost use Rattle.sp_lines.specs.Rows.{after_spaces};
ghost use Rattle.sp_schedule_crafts.specs.Written.{ack_words, krel_words, object_words, prio_words, rel_words, weight_words};

use crate::{CraftedAck, CraftedKrel, CraftedObject, CraftedPrio, CraftedRel};
use sp_base::Memory;
use sp_lines::{push_field, push_hex_field, push_mask_field, push_name_field};
use sp_msg::WeightBody;

/// Appends the words of an object in a format, each after a space. After an error the text is unspecified.
pub fn push_object(out: &mut String, format: u8, object: &CraftedObject) -> Result<(), Memory>
    ensures { OnOk result (string_bytes out.new ≡ string_bytes out.old ++ after_spaces (object_words format object.now)) }
{
    match object {
        CraftedObject::Rel(rel) => push_rel(out, rel),
        CraftedObject::Ack(ack) => push_ack(out, "ack", ack),
        CraftedObject::Prio(prio) => push_prio(out, format, prio),
        CraftedObject::Weight(weight) => push_weight(out, weight),
        CraftedObject::Krel(krel) => push_krel(out, format, krel),
        CraftedObject::Kack(kack) => push_ack(out, "kack", kack),
    }
}

fn push_rel(out: &mut String, rel: &CraftedRel) -> Result<(), Memory>
    ensures { OnOk result (string_bytes out.new ≡ string_bytes out.old ++ after_spaces (rel_words rel.now)) }
{
    push_name_field(out, "rel")?;
    push_field(out, u64::from(rel.src.0))?;
    push_field(out, u64::from(rel.dst.0))?;
    push_field(out, rel.seq)?;
    push_hex_field(out, rel.payload.as_slice())
}

/// Appends an acknowledgement of this name.
fn push_ack(out: &mut String, name: &str, ack: &CraftedAck) -> Result<(), Memory>
    ensures { OnOk result (string_bytes out.new ≡ string_bytes out.old ++ after_spaces (ack_words name.now ack.now)) }
{
    push_name_field(out, name)?;
    push_field(out, u64::from(ack.src.0))?;
    push_field(out, u64::from(ack.dst.0))?;
    push_field(out, ack.seq)
}

fn push_prio(out: &mut String, format: u8, prio: &CraftedPrio) -> Result<(), Memory>
    ensures { OnOk result (string_bytes out.new ≡ string_bytes out.old ++ after_spaces (prio_words format prio.now)) }
{
    push_name_field(out, "prio")?;
    push_field(out, u64::from(prio.src.0))?;
    push_field(out, u64::from(prio.dst.0))?;
    push_field(out, prio.seq)?;
    push_prio_fields(out, format, prio)
}

fn push_prio_fields(out: &mut String, format: u8, prio: &CraftedPrio) -> Result<(), Memory>
    ensures { OnOk result (string_bytes out.new ≡ string_bytes out.old
        ++ after_spaces (decimal prio.now.prio ∷ decimal prio.now.expiry
        ∷ mask_word format (prio.now.mask.high, prio.now.mask.low) ∷ hex_word prio.now.payload ∷ [])) }
{
    push_field(out, u64::from(prio.prio))?;
    push_field(out, prio.expiry)?;
    push_mask_field(out, format, prio.mask.high, prio.mask.low)?;
    push_hex_field(out, prio.payload.as_slice())
}

fn push_weight(out: &mut String, weight: &WeightBody) -> Result<(), Memory>
    ensures { OnOk result (string_bytes out.new ≡ string_bytes out.old ++ after_spaces (weight_words weight.now)) }
{
    push_name_field(out, "weight")?;
    push_field(out, u64::from(weight.origin.0))?;
    push_field(out, u64::from(weight.edge.0))?;
    push_field(out, weight.seq)?;
    push_field(out, u64::from(weight.weight))
}

fn push_krel(out: &mut String, format: u8, krel: &CraftedKrel) -> Result<(), Memory>
    ensures { OnOk result (string_bytes out.new ≡ string_bytes out.old ++ after_spaces (krel_words format krel.now)) }
{
    push_name_field(out, "krel")?;
    push_field(out, u64::from(krel.src.0))?;
    push_field(out, u64::from(krel.dst.0))?;
    push_field(out, krel.seq)?;
    push_mask_field(out, format, krel.mask.high, krel.mask.low)?;
    push_hex_field(out, krel.payload.as_slice())
}
