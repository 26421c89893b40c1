// A frame, written into memory that is taken at once: its whole room first, and then each part into room that is there.
ghost use Rattle.std.specs.Prelude.{◌≡◌, ◌+◌, ◌≤◌, ◌++◌, All, drop, length, map, IfOk, IfSome, option_map, replicate};
ghost use Rattle.std.specs.Prelude.{vec_capacity, vec_len};
ghost use Rattle.std.specs.List.{flat_map};
ghost use Rattle.byteorder.specs.Endian.{big_bytes};
ghost use Rattle.sp_frame.specs.Frames.{ends_bytes, frame_bytes, head_bytes, numbers_bytes};
ghost use Rattle.sp_frame.specs.Objects.{object_bytes};
ghost use Rattle.sp_frame.specs.Prioritized.{numbered_bytes, prios_bytes};
ghost use Rattle.sp_frame.specs.Probes.{epoch_bytes, probes_bytes};
ghost use Rattle.sp_frame.specs.Reliable.{ack_bytes, boot_bytes, paths_bytes, place_bytes, rels_bytes, report_bytes, slot_bytes};
ghost use Rattle.sp_frame.specs.Sections.{document_bytes, plain_bytes, with_document};
ghost use Rattle.sp_frame.specs.Views.{as_list};
ghost use Rattle.sp_frame.specs.Weights.{weights_bytes};
ghost use Rattle.sp_frame.specs.declared.writing.TheConstants.{MAX_DOCUMENT_BYTES};
ghost use Rattle.sp_frame.specs.Writing.{AreWritable, IsWritable, IsWritableSlot, out_contents, out_report};

use crate::frame::{DOCUMENT, HEAD_BYTES, MAX_FRAME_BYTES, MIN_FRAME_BYTES, NAME, TAG_BYTES};
use crate::lengths::sections_len;
use crate::{Head, Probe};
use sp_base::{
    Bytes, FORMAT_1, Flow, Four, Memory, push_bytes, push_u8, push_u16, push_u32, push_u64,
};
use sp_msg::{Kept, encoded_len, push_body};
use std::alloc::Global;

/// The bytes of the sections beside a document: 128, its length, and the 13 bytes 0 after it.
const BESIDE_DOCUMENT_BYTES: usize = 16;

/// The longest document of a frame: what a datagram has room for beside a head, a tag and these.
pub const MAX_DOCUMENT_BYTES: usize = MAX_FRAME_BYTES - MIN_FRAME_BYTES - BESIDE_DOCUMENT_BYTES;

/// A report on a flow, to be written, with an acknowledgement and messages of the flow.
#[derive(Debug, Drop)]
pub struct OutSlot<'a> {
    pub flow: Flow,
    /// The boots of the ends, which format 1 doesn't write.
    pub sboot: u64,
    pub dboot: u64,
    pub base: u64,
    pub have: u64,
    pub ack: Option<&'a Kept>,
    pub rels: Four<&'a Kept>,
}

/// The sections of a frame without a document, to be written. Format 1 doesn't write the last three.
#[derive(Debug, Drop)]
pub struct OutSections<'a> {
    pub weight: Option<&'a Kept>,
    pub prio_ack: u64,
    pub prios: Four<(u64, &'a Kept)>,
    pub slot: Option<OutSlot<'a>>,
    pub paths: Option<OutSlot<'a>>,
    pub probe: Option<Probe>,
    pub epoch: Option<&'a Kept>,
}

/// The bytes of a frame in the format of its head, with 32 zero bytes in the place of its tag. Only want of memory refuses.
#[tactic(auto, unfolding(crate::specs::Frames::frame_bytes, crate::specs::Sections::sections_bytes_in), using(crate::proofs::LengthLemmas::head_long))]
pub fn write(alloc: Global, head: &Head, sections: &OutSections<'_>) -> Result<Bytes, Memory>
    requires { AreWritable head.now.format sections.now }
    ensures bytes { IfOk result (λ bytes. bytes ≡ frame_bytes head.now (out_contents sections.now) (replicate 32 0)) }
{
    let len = HEAD_BYTES + sections_len(head.format, sections) + TAG_BYTES;
    let mut out = Vec::with_capacity(alloc, len)?;
    push_head(&mut out, head);
    push_sections(&mut out, head.format, sections);
    push_bytes(&mut out, &[0u8; TAG_BYTES]);
    Ok(Bytes::from_vec(out))
}

/// The bytes of a frame of format 2 with a document alone, with 32 zero bytes in the place of its tag. Only want of memory refuses.
#[tactic(auto, unfolding(crate::specs::Frames::frame_bytes, crate::specs::Sections::sections_bytes_in), using(crate::proofs::LengthLemmas::head_long))]
pub fn write_document(alloc: Global, head: &Head, document: &[u8]) -> Result<Bytes, Memory>
    requires { length document.now ≤ MAX_DOCUMENT_BYTES }
    ensures bytes { IfOk result (λ bytes. bytes ≡ frame_bytes head.now (with_document document.now) (replicate 32 0)) }
{
    let len = MIN_FRAME_BYTES + BESIDE_DOCUMENT_BYTES + document.len();
    let mut out = Vec::with_capacity(alloc, len)?;
    push_head(&mut out, head);
    push_u8(&mut out, DOCUMENT);
    push_document(&mut out, document);
    push_bytes(&mut out, &[0u8; TAG_BYTES]);
    Ok(Bytes::from_vec(out))
}

/// A document and what follows it, after the byte that says that there is one.
#[tactic(auto, unfolding(crate::specs::Sections::document_bytes, crate::specs::Sections::sized_bytes, crate::specs::Sections::zeros_bytes))]
fn push_document(out: &mut Vec<u8>, document: &[u8])
    requires short { length document.now ≤ MAX_DOCUMENT_BYTES }
    requires room { vec_len out.old + 15 + length document.now ≤ vec_capacity out.old }
    ensures bytes { out.new.items ≡ out.old.items ++ document_bytes document.now }
    ensures len { vec_len out.new ≡ vec_len out.old + 15 + length document.now }
    ensures capacity { vec_capacity out.old ≤ vec_capacity out.new }
{
    push_u16(out, document.len() as u16);
    push_bytes(out, document);
    push_bytes(out, &[0u8; 13]);
}

#[tactic(auto, unfolding(crate::specs::Frames::head_bytes))]
fn push_head(out: &mut Vec<u8>, head: &Head)
    requires { vec_len out.old + length (head_bytes head.now) ≤ vec_capacity out.old }
    ensures bytes { out.new.items ≡ out.old.items ++ head_bytes head.now }
    ensures len { vec_len out.new ≡ vec_len out.old + length (head_bytes head.now) }
    ensures capacity { vec_capacity out.old ≤ vec_capacity out.new }
{
    push_ends(out, head);
    push_numbers(out, head);
}

#[tactic(auto, unfolding(crate::specs::Frames::ends_bytes))]
fn push_ends(out: &mut Vec<u8>, head: &Head)
    requires { vec_len out.old + length (ends_bytes head.now) ≤ vec_capacity out.old }
    ensures bytes { out.new.items ≡ out.old.items ++ ends_bytes head.now }
    ensures len { vec_len out.new ≡ vec_len out.old + length (ends_bytes head.now) }
    ensures capacity { vec_capacity out.old ≤ vec_capacity out.new }
{
    push_u16(out, NAME);
    push_u8(out, head.format);
    push_u8(out, head.from.0);
    push_u8(out, head.to.0);
}

#[tactic(auto, unfolding(crate::specs::Frames::numbers_bytes))]
fn push_numbers(out: &mut Vec<u8>, head: &Head)
    requires { vec_len out.old + length (numbers_bytes head.now) ≤ vec_capacity out.old }
    ensures bytes { out.new.items ≡ out.old.items ++ numbers_bytes head.now }
    ensures len { vec_len out.new ≡ vec_len out.old + length (numbers_bytes head.now) }
    ensures capacity { vec_capacity out.old ≤ vec_capacity out.new }
{
    push_u64(out, head.boot);
    push_u64(out, head.echo);
    push_u64(out, head.counter);
    push_u32(out, head.topology);
}

#[tactic(auto, unfolding(crate::specs::Sections::plain_bytes))]
fn push_sections(out: &mut Vec<u8>, format: u8, sections: &OutSections<'_>)
    requires fits { AreWritable format sections.now }
    requires room { vec_len out.old + length (plain_bytes format (out_contents sections.now)) ≤ vec_capacity out.old }
    ensures bytes { out.new.items ≡ out.old.items ++ plain_bytes format (out_contents sections.now) }
    ensures len { vec_len out.new ≡ vec_len out.old + length (plain_bytes format (out_contents sections.now)) }
    ensures capacity { vec_capacity out.old ≤ vec_capacity out.new }
{
    push_weight(out, format, sections.weight);
    push_u64(out, sections.prio_ack);
    push_prios(out, format, &sections.prios);
    push_slot(out, format, sections.slot.as_ref());
    push_paths(out, format, sections.paths.as_ref());
    push_probe(out, format, sections.probe.as_ref());
    push_epoch(out, format, sections.epoch);
}

#[tactic(auto, using(crate::proofs::LengthLemmas::weights_are))]
fn push_weight(out: &mut Vec<u8>, format: u8, weight: Option<&Kept>)
    requires fits { IfSome weight (λ o. IsWritable format o.now) }
    requires room { vec_len out.old + length (weights_bytes format (as_list (option_map (λ o. o.now) weight))) ≤ vec_capacity out.old }
    ensures bytes { out.new.items ≡ out.old.items ++ weights_bytes format (as_list (option_map (λ o. o.now) weight.entry)) }
    ensures len { vec_len out.new ≡ vec_len out.old + length (weights_bytes format (as_list (option_map (λ o. o.now) weight.entry))) }
    ensures capacity { vec_capacity out.old ≤ vec_capacity out.new }
{
    push_flagged(out, format, weight);
}

#[tactic(auto, unfolding(crate::specs::Prioritized::prios_bytes))]
fn push_prios(out: &mut Vec<u8>, format: u8, prios: &Four<(u64, &Kept)>)
    requires fits { All (λ p. IsWritable format p.1.now) prios.now }
    requires room { vec_len out.old + length (prios_bytes format (map (λ p. (p.0, p.1.now)) prios.now)) ≤ vec_capacity out.old }
    ensures bytes { out.new.items ≡ out.old.items ++ prios_bytes format (map (λ p. (p.0, p.1.now)) prios.now) }
    ensures len { vec_len out.new ≡ vec_len out.old + length (prios_bytes format (map (λ p. (p.0, p.1.now)) prios.now)) }
    ensures capacity { vec_capacity out.old ≤ vec_capacity out.new }
{
    push_u8(out, prios.len() as u8);
    push_numbered(out, format, prios, 0);
}

/// The messages with link numbers from this place on.
#[tactic(auto, unfolding(crate::specs::Prioritized::numbered_bytes))]
fn push_numbered(out: &mut Vec<u8>, format: u8, prios: &Four<(u64, &Kept)>, place: usize)
    requires fits { All (λ p. IsWritable format p.1.now) prios.now }
    requires room { vec_len out.old + length (flat_map (numbered_bytes format) (map (λ p. (p.0, p.1.now)) (drop place prios.now))) ≤ vec_capacity out.old }
    ensures bytes { out.new.items ≡ out.old.items ++ flat_map (numbered_bytes format) (map (λ p. (p.0, p.1.now)) (drop place prios.now)) }
    ensures len { vec_len out.new ≡ vec_len out.old + length (flat_map (numbered_bytes format) (map (λ p. (p.0, p.1.now)) (drop place prios.now))) }
    ensures capacity { vec_capacity out.old ≤ vec_capacity out.new }
{
    let Some((number, message)) = prios.get(place) else {
        return;
    };
    push_u64(out, *number);
    push_object(out, format, message);
    push_numbered(out, format, prios, place + 1);
}

#[tactic(auto, unfolding(crate::specs::Reliable::slot_bytes))]
fn push_slot(out: &mut Vec<u8>, format: u8, slot: Option<&OutSlot<'_>>)
    requires fits { IfSome slot (λ s. IsWritableSlot format s.now) }
    requires room { vec_len out.old + length (slot_bytes format (option_map (λ s. out_report s.now) slot)) ≤ vec_capacity out.old }
    ensures bytes { out.new.items ≡ out.old.items ++ slot_bytes format (option_map (λ s. out_report s.now) slot.entry) }
    ensures len { vec_len out.new ≡ vec_len out.old + length (slot_bytes format (option_map (λ s. out_report s.now) slot.entry)) }
    ensures capacity { vec_capacity out.old ≤ vec_capacity out.new }
{
    let Some(slot) = slot else {
        push_u8(out, 0);
        return;
    };
    push_u8(out, 1);
    push_report(out, format, slot);
}

/// The paths section, which format 1 lacks.
#[tactic(auto, using(crate::proofs::LengthLemmas::paths_are, crate::proofs::LengthLemmas::no_paths_are))]
fn push_paths(out: &mut Vec<u8>, format: u8, paths: Option<&OutSlot<'_>>)
    requires fits { IfSome paths (λ s. IsWritableSlot format s.now) }
    requires room { vec_len out.old + length (paths_bytes format (option_map (λ s. out_report s.now) paths)) ≤ vec_capacity out.old }
    ensures bytes { out.new.items ≡ out.old.items ++ paths_bytes format (option_map (λ s. out_report s.now) paths.entry) }
    ensures len { vec_len out.new ≡ vec_len out.old + length (paths_bytes format (option_map (λ s. out_report s.now) paths.entry)) }
    ensures capacity { vec_capacity out.old ≤ vec_capacity out.new }
{
    if format != FORMAT_1 {
        push_slot(out, format, paths);
    }
}

/// The probe section, which format 1 lacks.
#[tactic(auto, unfolding(crate::specs::Probes::probes_bytes, crate::specs::Probes::probe_bytes))]
fn push_probe(out: &mut Vec<u8>, format: u8, probe: Option<&Probe>)
    requires room { vec_len out.old + length (probes_bytes format (option_map (λ p. p.now) probe)) ≤ vec_capacity out.old }
    ensures bytes { out.new.items ≡ out.old.items ++ probes_bytes format (option_map (λ p. p.now) probe.entry) }
    ensures len { vec_len out.new ≡ vec_len out.old + length (probes_bytes format (option_map (λ p. p.now) probe.entry)) }
    ensures capacity { vec_capacity out.old ≤ vec_capacity out.new }
{
    if format == FORMAT_1 {
        return;
    }
    let Some(probe) = probe else {
        push_u8(out, 0);
        return;
    };
    push_u8(out, 1);
    push_u64(out, probe.number);
    push_bytes(out, &probe.nonce);
    push_u64(out, probe.echo);
    push_bytes(out, &probe.proof);
}

/// The epoch section, which format 1 lacks.
#[tactic(auto, using(crate::proofs::LengthLemmas::epoch_is, crate::proofs::LengthLemmas::no_epoch_is))]
fn push_epoch(out: &mut Vec<u8>, format: u8, said: Option<&Kept>)
    requires fits { IfSome said (λ o. IsWritable format o.now) }
    requires room { vec_len out.old + length (epoch_bytes format (option_map (λ o. o.now) said)) ≤ vec_capacity out.old }
    ensures bytes { out.new.items ≡ out.old.items ++ epoch_bytes format (option_map (λ o. o.now) said.entry) }
    ensures len { vec_len out.new ≡ vec_len out.old + length (epoch_bytes format (option_map (λ o. o.now) said.entry)) }
    ensures capacity { vec_capacity out.old ≤ vec_capacity out.new }
{
    if format != FORMAT_1 {
        push_flagged(out, format, said);
    }
}

/// The boot of an end, which format 1 lacks.
fn push_boot(out: &mut Vec<u8>, format: u8, boot: u64)
    requires { vec_len out.old + boot_bytes format ≤ vec_capacity out.old }
    ensures bytes { out.new.items ≡ out.old.items ++ big_bytes (boot_bytes format) boot }
    ensures len { vec_len out.new ≡ vec_len out.old + boot_bytes format }
    ensures capacity { vec_capacity out.old ≤ vec_capacity out.new }
{
    if format != FORMAT_1 {
        push_u64(out, boot);
    }
}

#[tactic(auto, unfolding(crate::specs::Reliable::report_bytes))]
fn push_report(out: &mut Vec<u8>, format: u8, slot: &OutSlot<'_>)
    requires fits { IsWritableSlot format slot.now }
    requires room { vec_len out.old + length (report_bytes format (out_report slot.now)) ≤ vec_capacity out.old }
    ensures bytes { out.new.items ≡ out.old.items ++ report_bytes format (out_report slot.now) }
    ensures len { vec_len out.new ≡ vec_len out.old + length (report_bytes format (out_report slot.now)) }
    ensures capacity { vec_capacity out.old ≤ vec_capacity out.new }
{
    push_place(out, format, slot);
    push_flagged(out, format, slot.ack);
    push_rels(out, format, &slot.rels);
}

#[tactic(auto, unfolding(crate::specs::Reliable::place_bytes))]
fn push_place(out: &mut Vec<u8>, format: u8, slot: &OutSlot<'_>)
    requires { vec_len out.old + length (place_bytes format (out_report slot.now)) ≤ vec_capacity out.old }
    ensures bytes { out.new.items ≡ out.old.items ++ place_bytes format (out_report slot.now) }
    ensures len { vec_len out.new ≡ vec_len out.old + length (place_bytes format (out_report slot.now)) }
    ensures capacity { vec_capacity out.old ≤ vec_capacity out.new }
{
    push_u8(out, slot.flow.src.0);
    push_u8(out, slot.flow.dst.0);
    push_boot(out, format, slot.sboot);
    push_boot(out, format, slot.dboot);
    push_u64(out, slot.base);
    push_u64(out, slot.have);
}

/// An object after its flag or count, or a flag alone.
#[tactic(auto, unfolding(crate::specs::Reliable::ack_bytes))]
fn push_flagged(out: &mut Vec<u8>, format: u8, object: Option<&Kept>)
    requires fits { IfSome object (λ o. IsWritable format o.now) }
    requires room { vec_len out.old + length (ack_bytes format (option_map (λ o. o.now) object)) ≤ vec_capacity out.old }
    ensures bytes { out.new.items ≡ out.old.items ++ ack_bytes format (option_map (λ o. o.now) object.entry) }
    ensures len { vec_len out.new ≡ vec_len out.old + length (ack_bytes format (option_map (λ o. o.now) object.entry)) }
    ensures capacity { vec_capacity out.old ≤ vec_capacity out.new }
{
    let Some(object) = object else {
        push_u8(out, 0);
        return;
    };
    push_u8(out, 1);
    push_object(out, format, object);
}

#[tactic(auto, unfolding(crate::specs::Reliable::rels_bytes))]
fn push_rels(out: &mut Vec<u8>, format: u8, rels: &Four<&Kept>)
    requires fits { All (λ o. IsWritable format o.now) rels.now }
    requires room { vec_len out.old + length (rels_bytes format (map (λ o. o.now) rels.now)) ≤ vec_capacity out.old }
    ensures bytes { out.new.items ≡ out.old.items ++ rels_bytes format (map (λ o. o.now) rels.now) }
    ensures len { vec_len out.new ≡ vec_len out.old + length (rels_bytes format (map (λ o. o.now) rels.now)) }
    ensures capacity { vec_capacity out.old ≤ vec_capacity out.new }
{
    push_u8(out, rels.len() as u8);
    push_objects(out, format, rels, 0);
}

/// The objects from this place on.
fn push_objects(out: &mut Vec<u8>, format: u8, rels: &Four<&Kept>, place: usize)
    requires fits { All (λ o. IsWritable format o.now) rels.now }
    requires room { vec_len out.old + length (flat_map (object_bytes format) (map (λ o. o.now) (drop place rels.now))) ≤ vec_capacity out.old }
    ensures bytes { out.new.items ≡ out.old.items ++ flat_map (object_bytes format) (map (λ o. o.now) (drop place rels.now)) }
    ensures len { vec_len out.new ≡ vec_len out.old + length (flat_map (object_bytes format) (map (λ o. o.now) (drop place rels.now))) }
    ensures capacity { vec_capacity out.old ≤ vec_capacity out.new }
{
    let Some(message) = rels.get(place) else {
        return;
    };
    push_object(out, format, message);
    push_objects(out, format, rels, place + 1);
}

#[tactic(auto, unfolding(crate::specs::Objects::object_bytes), using(crate::proofs::LengthLemmas::encoded_fits))]
fn push_object(out: &mut Vec<u8>, format: u8, object: &Kept)
    requires fits { IsWritable format object.now }
    requires room { vec_len out.old + length (object_bytes format object.now) ≤ vec_capacity out.old }
    ensures bytes { out.new.items ≡ out.old.items ++ object_bytes format object.now }
    ensures len { vec_len out.new ≡ vec_len out.old + length (object_bytes format object.now) }
    ensures capacity { vec_capacity out.old ≤ vec_capacity out.new }
{
    push_u16(out, encoded_len(&object.body, format) as u16);
    let Ok(()) = push_body(out, &object.body, format) else {
        unreachable!()
    };
    let signature = object.signature.as_slice();
    push_u16(out, signature.len() as u16);
    push_bytes(out, signature);
}
