// How many bytes each part of a frame takes, before it is written.
ghost use Rattle.std.specs.Prelude.{◌≡◌, ◌+◌, ◌≤◌, ◌-◌, ◌*◌, All, drop, length, map, IfSome, option_map};
ghost use Rattle.std.specs.List.{flat_map};
ghost use Rattle.sp_base.specs.declared.limits.TheConstants.{MAX_MESSAGES};
ghost use Rattle.sp_frame.specs.Objects.{object_bytes};
ghost use Rattle.sp_frame.specs.Prioritized.{numbered_bytes, prios_bytes};
ghost use Rattle.sp_frame.specs.Probes.{epoch_bytes, probes_bytes};
ghost use Rattle.sp_frame.specs.Reliable.{ack_bytes, boot_bytes, paths_bytes, rels_bytes, slot_bytes};
ghost use Rattle.sp_frame.specs.Sections.{plain_bytes};
ghost use Rattle.sp_frame.specs.Views.{as_list};
ghost use Rattle.sp_frame.specs.Weights.{weights_bytes};
ghost use Rattle.sp_frame.specs.Writing.{AreWritable, IsWritable, IsWritableSlot, out_contents, out_report};

use crate::{OutSections, OutSlot, Probe};
use sp_base::{FORMAT_1, Four, by_format};
use sp_msg::{Kept, encoded_len};

/// The bytes of a count or a flag.
const COUNT_BYTES: usize = 1;

/// The bytes of the length before a message, and of that before its signature.
const LENGTH_BYTES: usize = 2;

/// The bytes of a link number.
const PRIO_ACK_BYTES: usize = 8;

/// The bytes of a flow, of the boots of its ends, and of its two numbers.
fn place_len(format: u8) -> usize
    ensures { result ≡ 18 + 2 * boot_bytes format }
{
    by_format(format, 18, 34)
}

/// All sections of a frame without a document.
#[tactic(auto, unfolding(crate::specs::Sections::plain_bytes))]
pub fn sections_len(format: u8, sections: &OutSections<'_>) -> usize
    requires { AreWritable format sections.now }
    ensures exact { result ≡ length (plain_bytes format (out_contents sections.now)) }
    ensures few { result ≤ 3_000_000 }
{
    let first = weight_len(format, sections.weight) + PRIO_ACK_BYTES;
    let messages = prios_len(format, &sections.prios) + slot_len(format, sections.slot.as_ref());
    let later = paths_len(format, sections.paths.as_ref())
        + probe_len(format, sections.probe.as_ref())
        + epoch_len(format, sections.epoch);
    first + messages + later
}

#[tactic(auto, using(crate::proofs::LengthLemmas::weights_long))]
fn weight_len(format: u8, weight: Option<&Kept>) -> usize
    requires { IfSome weight (λ o. IsWritable format o.now) }
    ensures exact { result ≡ length (weights_bytes format (as_list (option_map (λ o. o.now) weight.entry))) }
    ensures few { result ≤ 132_000 }
{
    flagged_len(format, weight)
}

#[tactic(auto, unfolding(crate::specs::Prioritized::prios_bytes), using(crate::proofs::LengthLemmas::counted_long))]
fn prios_len(format: u8, prios: &Four<(u64, &Kept)>) -> usize
    requires { All (λ p. IsWritable format p.1.now) prios.now }
    ensures exact { result ≡ length (prios_bytes format (map (λ p. (p.0, p.1.now)) prios.now)) }
    ensures few { result ≤ 600_000 }
{
    COUNT_BYTES + numbered_len(format, prios, 0)
}

/// The messages with link numbers from this place on.
fn numbered_len(format: u8, prios: &Four<(u64, &Kept)>, place: usize) -> usize
    requires { All (λ p. IsWritable format p.1.now) prios.now }
    ensures exact { result ≡ length (flat_map (numbered_bytes format) (map (λ p. (p.0, p.1.now)) (drop place prios.now))) }
    ensures few { result ≤ (MAX_MESSAGES - place) * 131_082 }
{
    match prios.get(place) {
        None => 0,
        Some((_, message)) => PRIO_ACK_BYTES
            + object_len(format, message)
            + numbered_len(format, prios, place + 1),
    }
}

#[tactic(auto, using(crate::proofs::LengthLemmas::no_slot_long, crate::proofs::LengthLemmas::slot_long, crate::proofs::LengthLemmas::acks_long))]
fn slot_len(format: u8, slot: Option<&OutSlot<'_>>) -> usize
    requires { IfSome slot (λ s. IsWritableSlot format s.now) }
    ensures exact { result ≡ length (slot_bytes format (option_map (λ s. out_report s.now) slot.entry)) }
    ensures few { result ≤ 800_000 }
{
    match slot {
        None => COUNT_BYTES,
        Some(slot) => COUNT_BYTES
            + place_len(format)
            + flagged_len(format, slot.ack)
            + rels_len(format, &slot.rels),
    }
}

/// The paths section, which format 1 lacks.
#[tactic(auto, using(crate::proofs::LengthLemmas::no_paths_long, crate::proofs::LengthLemmas::paths_long))]
fn paths_len(format: u8, paths: Option<&OutSlot<'_>>) -> usize
    requires { IfSome paths (λ s. IsWritableSlot format s.now) }
    ensures exact { result ≡ length (paths_bytes format (option_map (λ s. out_report s.now) paths.entry)) }
    ensures few { result ≤ 800_000 }
{
    if format == FORMAT_1 {
        0
    } else {
        slot_len(format, paths)
    }
}

/// The probe section, which format 1 lacks.
#[tactic(auto, using(crate::proofs::LengthLemmas::no_probes_long, crate::proofs::LengthLemmas::none_probed_long, crate::proofs::LengthLemmas::probes_long))]
fn probe_len(format: u8, probe: Option<&Probe>) -> usize
    ensures exact { result ≡ length (probes_bytes format (option_map (λ p. p.now) probe.entry)) }
    ensures few { result ≤ 57 }
{
    match probe {
        _ if format == FORMAT_1 => 0,
        None => COUNT_BYTES,
        Some(probe) => COUNT_BYTES + 16 + nonce_len(&probe.nonce) + proof_len(&probe.proof),
    }
}

fn nonce_len(nonce: &[u8; 8]) -> usize
    ensures exact { result ≡ length nonce.now }
    ensures few { result ≤ 8 }
{
    nonce.len()
}

fn proof_len(proof: &[u8; 32]) -> usize
    ensures exact { result ≡ length proof.now }
    ensures few { result ≤ 32 }
{
    proof.len()
}

/// The epoch section, which format 1 lacks.
#[tactic(auto, using(crate::proofs::LengthLemmas::no_epoch_long, crate::proofs::LengthLemmas::epoch_long))]
fn epoch_len(format: u8, said: Option<&Kept>) -> usize
    requires { IfSome said (λ o. IsWritable format o.now) }
    ensures exact { result ≡ length (epoch_bytes format (option_map (λ o. o.now) said.entry)) }
    ensures few { result ≤ 132_000 }
{
    if format == FORMAT_1 {
        0
    } else {
        flagged_len(format, said)
    }
}

/// An object after its flag or count, or a flag alone.
#[tactic(auto, using(crate::proofs::LengthLemmas::no_rels_long, crate::proofs::LengthLemmas::rels_long))]
fn flagged_len(format: u8, object: Option<&Kept>) -> usize
    requires { IfSome object (λ o. IsWritable format o.now) }
    ensures exact { result ≡ length (rels_bytes format (as_list (option_map (λ o. o.now) object.entry))) }
    ensures few { result ≤ 132_000 }
{
    match object {
        None => COUNT_BYTES,
        Some(object) => COUNT_BYTES + object_len(format, object),
    }
}

#[tactic(auto, unfolding(crate::specs::Reliable::rels_bytes), using(crate::proofs::LengthLemmas::counted_long))]
fn rels_len(format: u8, rels: &Four<&Kept>) -> usize
    requires { All (λ o. IsWritable format o.now) rels.now }
    ensures exact { result ≡ length (rels_bytes format (map (λ o. o.now) rels.now)) }
    ensures few { result ≤ 600_000 }
{
    COUNT_BYTES + objects_len(format, rels, 0)
}

/// The objects from this place on.
fn objects_len(format: u8, rels: &Four<&Kept>, place: usize) -> usize
    requires { All (λ o. IsWritable format o.now) rels.now }
    ensures exact { result ≡ length (flat_map (object_bytes format) (map (λ o. o.now) (drop place rels.now))) }
    ensures few { result ≤ (MAX_MESSAGES - place) * 131_074 }
{
    match rels.get(place) {
        None => 0,
        Some(message) => object_len(format, message) + objects_len(format, rels, place + 1),
    }
}

#[tactic(auto, using(crate::proofs::LengthLemmas::encoded_fits, crate::proofs::LengthLemmas::object_long))]
fn object_len(format: u8, object: &Kept) -> usize
    requires { IsWritable format object.now }
    ensures exact { result ≡ length (object_bytes format object.now) }
    ensures few { result ≤ 131_074 }
{
    LENGTH_BYTES
        + encoded_len(&object.body, format)
        + LENGTH_BYTES
        + object.signature.as_slice().len()
}
