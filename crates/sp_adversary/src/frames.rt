// Frames that a compromised node crafts: fresh to their receiver, and under the right tag.
ghost use Rattle.std.specs.Prelude.{ℕ, ◌≡◌, ◌≤◌, ◌++◌, [], All, IfOk, IfSome, None as Nothing, length, map, option_map, replicate};
ghost use Rattle.sp_frame.specs.Frames.{frame_bytes, tagged_part};
ghost use Rattle.sp_frame.specs.Sections.{with_document};
ghost use Rattle.sp_frame.specs.Views.{as_list};
ghost use Rattle.sp_frame.specs.Writing.{IsWritable, IsWritableSlot, out_contents, out_report};
ghost use Rattle.sp_frame.specs.declared.frame.TheConstants.{TAG_BYTES};
ghost use Rattle.sp_frame.specs.declared.writing.TheConstants.{MAX_DOCUMENT_BYTES};
ghost use Rattle.sp_hmac.specs.Hmac.{hmac};
ghost use Rattle.sp_node_format.specs.Format.{format_in};
ghost use Rattle.sp_adversary.specs.Boots.{object_with, report_with, slot_said, slot_with};
ghost use Rattle.sp_runs.specs.Inputs.{contents_with, counter_after, sealed_frame};

use crate::boots::EndBoots;
use sp_base::{Bytes, Flow, Four, Memory, NodeId};
use sp_frame::{Head, OutSections, OutSlot, TAG_BYTES, write, write_document};
use sp_msg::{Body, Kept};
use std::alloc::Global;

/// The boot number of each compromised node.
const BOOT: u64 = 1;

/// The head of the next crafted frame of `from` for `to`. `to` has the boot number `echo`, runs under this version of the topology, which
/// is of this format, and `seen` is the counter that it keeps of `from`. The frame has the next counter, as far as there is one.
pub fn crafted_head(
    from: NodeId,
    to: NodeId,
    echo: u64,
    seen: u64,
    topology: u32,
    format: u8,
) -> Head
    ensures { result ≡ record { from = from; to = to; boot = 1; echo = echo; counter = counter_after seen; topology = topology; format = format } }
{
    Head {
        from,
        to,
        boot: BOOT,
        echo,
        counter: seen.saturating_add(1),
        topology,
        format,
    }
}

/// A frame with one message in its section, under the tag of this key. A slot names the boots that its message names. Only want of memory refuses.
#[tactic(auto, using(crate::proofs::Seals::sealed_is, crate::proofs::Seals::long_enough))]
pub fn object_frame(
    alloc: Global,
    head: &Head,
    key: &[u8; 32],
    object: &Kept,
) -> Result<Bytes, Memory>
    requires { IsWritable head.now.format object.now }
    ensures { IfOk result (λ bytes. bytes ≡ sealed_frame (format_in head.now.format) head.now key.now (object_with object.now.body object.now)) }
{
    let mut frame = with_object(alloc, head, object)?;
    seal(key, &mut frame);
    Ok(frame)
}

/// A frame with a report on a flow, which names these boots, and no message, under the tag of this key. Only want of memory refuses.
#[tactic(auto, using(crate::proofs::Seals::sealed_is, crate::proofs::Seals::long_enough))]
pub fn status_frame(
    alloc: Global,
    head: &Head,
    key: &[u8; 32],
    flow: Flow,
    boots: EndBoots,
    base: u64,
    have: u64,
) -> Result<Bytes, Memory>
    ensures { IfOk result (λ bytes. bytes ≡ sealed_frame (format_in head.now.format) head.now key.now (slot_with boots flow base have Nothing [])) }
{
    let slot = OutSlot {
        flow,
        sboot: boots.sboot,
        dboot: boots.dboot,
        base,
        have,
        ack: None,
        rels: Four::new(),
    };
    let sections = OutSections {
        slot: Some(slot),
        ..no_sections()
    };
    let mut frame = write(alloc, head, &sections)?;
    seal(key, &mut frame);
    Ok(frame)
}

/// A frame of format 2 with a document and nothing else, under the tag of this key. Only want of memory refuses.
#[tactic(auto, using(crate::proofs::Seals::sealed_is, crate::proofs::Seals::long_enough))]
pub fn document_frame(
    alloc: Global,
    head: &Head,
    key: &[u8; 32],
    document: &[u8],
) -> Result<Bytes, Memory>
    requires { length document.now ≤ MAX_DOCUMENT_BYTES }
    ensures { IfOk result (λ bytes. bytes ≡ sealed_frame (format_in head.now.format) head.now key.now (with_document document.now)) }
{
    let mut frame = write_document(alloc, head, document)?;
    seal(key, &mut frame);
    Ok(frame)
}

/// The bytes of a frame with one message in its section, with zeros in the place of its tag.
fn with_object(alloc: Global, head: &Head, object: &Kept) -> Result<Bytes, Memory>
    requires { IsWritable head.now.format object.now }
    ensures { IfOk result (λ bytes. bytes ≡ frame_bytes head.now (object_with object.now.body object.now) (replicate 32 0)) }
{
    let none = no_sections();
    let sections = match &object.body {
        Body::Prio(_) => OutSections {
            prios: Four::new().with((1, object)),
            ..none
        },
        Body::Weight(_) => OutSections {
            weight: Some(object),
            ..none
        },
        Body::Ack(_) | Body::Rel(_) => OutSections {
            slot: slot_of(object),
            ..none
        },
        Body::Kack(_) | Body::Krel(_) => OutSections {
            paths: slot_of(object),
            ..none
        },
        _ => none,
    };
    write(alloc, head, &sections)
}

/// The slot of a message of a flow, or of an acknowledgement, with a report of the boots that it names.
fn slot_of<'a>(object: &'a Kept) -> Option<OutSlot<'a>>
    ensures slot { option_map out_report result ≡ slot_said object.now.body object.now }
    ensures writable { (format : ℕ) → IsWritable format object.now → IfSome result (IsWritableSlot format) }
{
    match &object.body {
        Body::Ack(ack) => {
            let boots = EndBoots {
                sboot: ack.sboot,
                dboot: ack.dboot,
            };
            Some(of_flow(
                Flow::between(ack.src, ack.dst),
                boots,
                Some(object),
                Four::new(),
            ))
        }
        Body::Kack(ack) => {
            let boots = EndBoots {
                sboot: ack.sboot,
                dboot: ack.dboot,
            };
            Some(of_flow(
                Flow::between(ack.src, ack.dst),
                boots,
                Some(object),
                Four::new(),
            ))
        }
        Body::Rel(rel) => {
            let boots = EndBoots {
                sboot: rel.sboot,
                dboot: rel.dboot,
            };
            Some(of_flow(
                Flow::between(rel.src, rel.dst),
                boots,
                None,
                Four::new().with(object),
            ))
        }
        Body::Krel(rel) => {
            let boots = EndBoots {
                sboot: rel.sboot,
                dboot: rel.dboot,
            };
            Some(of_flow(
                Flow::between(rel.src, rel.dst),
                boots,
                None,
                Four::new().with(object),
            ))
        }
        _ => None,
    }
}

/// A slot of a flow with a report of these boots, which says that nothing is there.
fn of_flow<'a>(
    flow: Flow,
    boots: EndBoots,
    ack: Option<&'a Kept>,
    rels: Four<&'a Kept>,
) -> OutSlot<'a>
    ensures { out_report result ≡ report_with boots flow 0 0 (option_map (λ o. o.now) ack.entry) (map (λ o. o.now) rels.entry) }
{
    OutSlot {
        flow,
        sboot: boots.sboot,
        dboot: boots.dboot,
        base: 0,
        have: 0,
        ack,
        rels,
    }
}

/// Sections with nothing in them.
fn no_sections<'a>() -> OutSections<'a>
    ensures { out_contents result ≡ contents_with [] [] Nothing }
{
    OutSections {
        weight: None,
        prio_ack: 0,
        prios: Four::new(),
        slot: None,
        paths: None,
        probe: None,
        epoch: None,
    }
}

/// Writes the tag of all bytes before it into the last 32 bytes (RFC 2104, section 2).
fn seal(key: &[u8; 32], frame: &mut Bytes)
    requires { TAG_BYTES ≤ length frame.old }
    ensures { frame.new ≡ tagged_part frame.old ++ hmac key.now (tagged_part frame.old) }
{
    let at = frame.as_slice().len() - TAG_BYTES;
    let (signed, _) = frame.as_slice().split_at(at);
    let tag = sp_hmac::tag(key, &[], signed);
    frame.as_mut_slice()[at..].copy_from_slice(&tag);
}
