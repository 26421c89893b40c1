// The reports on flows in a frame, read in place from the left.
ghost use Rattle.std.specs.Prelude.{◌≡◌, ◌≤◌, All, IfOk, IfSome, length, map, option_map};
ghost use Rattle.sp_base.specs.Refusals.{Gives};
ghost use Rattle.sp_base.specs.declared.limits.TheConstants.{MAX_MESSAGES};
ghost use Rattle.sp_frame.specs.Grammar.{flagged, number, times};
ghost use Rattle.sp_frame.specs.Objects.{most, object};
ghost use Rattle.sp_frame.specs.OfFormat.{IsOf, IsSlotOf};
ghost use Rattle.sp_frame.specs.Reliable.{boot_bytes, paths, rels, report, slot};
ghost use Rattle.sp_frame.specs.Views.{as_object, as_report};

use crate::judging::object_at;
use crate::kind::Kind;
use crate::sections::{flagged_object_at, has_one, limited_at, most};
use crate::{ObjectRef, SectionRefused, Slot};
use sp_base::{FORMAT_1, Flow, Four, NodeId, Reader};

/// The reliable section.
#[tactic(auto, unfolding(crate::specs::Reliable::slot))]
pub(crate) fn slot_at<'a>(
    reader: &mut Reader<'a>,
    format: u8,
    signature_len: usize,
) -> Result<Option<Slot<'a>>, SectionRefused>
    ensures read { Gives (λ s. (option_map as_report s, reader.new)) result (slot format signature_len reader.old) }
    ensures of_format { IfOk result (λ s. IfSome s (IsSlotOf format)) }
{
    flagged_report_at(reader, format, Kind::Ack, Kind::Rel, signature_len)
}

/// The paths section, which format 1 lacks.
#[tactic(auto, unfolding(crate::specs::Reliable::paths))]
pub(crate) fn paths_at<'a>(
    reader: &mut Reader<'a>,
    format: u8,
    signature_len: usize,
) -> Result<Option<Slot<'a>>, SectionRefused>
    ensures read { Gives (λ s. (option_map as_report s, reader.new)) result (paths format signature_len reader.old) }
    ensures of_format { IfOk result (λ s. IfSome s (IsSlotOf format)) }
    ensures one { IfOk result (λ s. IfSome s (λ p. length p.rels ≤ 1)) }
{
    if format == FORMAT_1 {
        return Ok(None);
    }
    flagged_report_at(reader, format, Kind::Kack, Kind::Krel, signature_len)
}

/// A report after its flag, or none.
fn flagged_report_at<'a>(
    reader: &mut Reader<'a>,
    format: u8,
    acks: Kind,
    messages: Kind,
    signature_len: usize,
) -> Result<Option<Slot<'a>>, SectionRefused>
    ensures read { Gives (λ s. (option_map as_report s, reader.new)) result (flagged (report format acks messages signature_len) reader.old) }
    ensures of_format { IfOk result (λ s. IfSome s (IsSlotOf format)) }
    ensures few { IfOk result (λ s. IfSome s (λ r. length r.rels ≤ most format messages)) }
{
    if !has_one(reader)? {
        return Ok(None);
    }
    let slot = report_at(reader, format, acks, messages, signature_len)?;
    Ok(Some(slot))
}

/// A report with an acknowledgement of one kind and messages of another.
#[tactic(auto, unfolding(crate::specs::Reliable::report, crate::specs::Grammar::number))]
fn report_at<'a>(
    reader: &mut Reader<'a>,
    format: u8,
    acks: Kind,
    messages: Kind,
    signature_len: usize,
) -> Result<Slot<'a>, SectionRefused>
    ensures read { Gives (λ s. (as_report s, reader.new)) result (report format acks messages signature_len reader.old) }
    ensures of_format { IfOk result (IsSlotOf format) }
    ensures few { IfOk result (λ s. length s.rels ≤ most format messages) }
{
    let src = NodeId(reader.u8()?);
    let dst = NodeId(reader.u8()?);
    let sboot = boot_at(reader, format)?;
    let dboot = boot_at(reader, format)?;
    let base = reader.u64()?;
    let have = reader.u64()?;
    let ack = flagged_object_at(reader, format, acks, signature_len)?;
    let rels = rels_at(reader, format, messages, signature_len)?;
    Ok(Slot {
        flow: Flow { src, dst },
        sboot,
        dboot,
        base,
        have,
        ack,
        rels,
    })
}

/// The boot of an end, which format 1 lacks.
#[tactic(auto, unfolding(crate::specs::Grammar::number), using(sp_msg::proofs::FieldLemmas::no_bytes))]
fn boot_at(reader: &mut Reader<'_>, format: u8) -> Result<u64, SectionRefused>
    ensures { Gives (λ x. (x, reader.new)) result (number (boot_bytes format) reader.old) }
{
    if format == FORMAT_1 {
        return Ok(0);
    }
    Ok(reader.u64()?)
}

#[tactic(auto, unfolding(crate::specs::Reliable::rels))]
fn rels_at<'a>(
    reader: &mut Reader<'a>,
    format: u8,
    kind: Kind,
    signature_len: usize,
) -> Result<Four<ObjectRef<'a>>, SectionRefused>
    ensures read { Gives (λ o. (map as_object o, reader.new)) result (rels format kind signature_len reader.old) }
    ensures few { IfOk result (λ o. length o ≤ most format kind) }
    ensures of_format { IfOk result (All (IsOf format)) }
{
    let count = limited_at(reader, most(format, kind))?;
    many_rels(reader, count, format, kind, signature_len)
}

/// So many reliable or K-path messages.
#[tactic(auto, using(crate::proofs::TimesLemmas::read_in_turn))]
fn many_rels<'a>(
    reader: &mut Reader<'a>,
    count: u8,
    format: u8,
    kind: Kind,
    signature_len: usize,
) -> Result<Four<ObjectRef<'a>>, SectionRefused>
    requires { count ≤ MAX_MESSAGES }
    ensures read { Gives (λ o. (map as_object o, reader.new)) result (times (object format kind signature_len) count reader.old) }
    ensures many { IfOk result (λ o. length o ≡ count) }
    ensures of_format { IfOk result (All (IsOf format)) }
{
    if count == 0 {
        return Ok(Four::new());
    }
    let first = object_at(reader, format, kind, signature_len)?;
    let others = many_rels(reader, count - 1, format, kind, signature_len)?;
    Ok(others.led_by(first))
}
