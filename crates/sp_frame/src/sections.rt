// The sections of a frame, read in place from the left.
ghost use Rattle.std.specs.Prelude.{ℕ, ◌≡◌, ◌≤◌, All, IfOk, IfSome, IsTrue, length, map, option_map, if◌then◌else◌};
ghost use Rattle.sp_base.specs.Refusals.{Gives};
ghost use Rattle.sp_base.specs.declared.limits.TheConstants.{MAX_MESSAGES};
ghost use Rattle.sp_frame.specs.Grammar.{count, limited, number, times};
ghost use Rattle.sp_frame.specs.Objects.{most, object};
ghost use Rattle.sp_frame.specs.OfFormat.{AreOf, IsOf};
ghost use Rattle.sp_frame.specs.Prioritized.{numbered, prios};
ghost use Rattle.sp_frame.specs.Probes.{epoch, probe_at, probes};
ghost use Rattle.sp_frame.specs.Reliable.{ack};
ghost use Rattle.sp_frame.specs.Sections.{document_at, has_document, plain_at, sections_of_in, sized, whole_of, zeros};
ghost use Rattle.sp_frame.specs.Views.{as_contents, as_list, as_numbered, as_object};
ghost use Rattle.sp_frame.specs.Weights.{weights};

use crate::frame::DOCUMENT;
use crate::judging::object_at;
use crate::kind::Kind;
use crate::reports::{paths_at, slot_at};
use crate::{ObjectRef, Probe, SectionRefused};
use sp_base::{FORMAT_1, Flow, Four, MAX_MESSAGES, Reader};

/// How many signed objects a node handles of one frame at most: an update of a weight, the priority messages, an acknowledgement with plain reliable messages,
/// an acknowledgement with one message on paths, and an Epoch object.
pub const MOST_OBJECTS: usize = 1 + MAX_MESSAGES + (1 + MAX_MESSAGES) + (1 + 1) + 1;

/// The sections of a frame, borrowed from its datagram. Where it has a document it has nothing else.
#[derive(Debug, Drop)]
pub struct Sections<'a> {
    /// A signed document of a topology.
    pub document: Option<&'a [u8]>,
    /// What a node says of the weight of an edge.
    pub weight: Option<ObjectRef<'a>>,
    /// Up to which of its link numbers the receiver was heard.
    pub prio_ack: u64,
    /// Priority messages, each after the link number that the sender gave it.
    pub prios: Four<(u64, ObjectRef<'a>)>,
    pub slot: Option<Slot<'a>>,
    /// The same of a K-path flow.
    pub paths: Option<Slot<'a>>,
    pub probe: Option<Probe>,
    /// What a node says of its boot.
    pub epoch: Option<ObjectRef<'a>>,
}

/// A report on a flow, with an acknowledgement and messages of the flow. Its ends may be any bytes.
#[derive(Debug, Drop)]
pub struct Slot<'a> {
    pub flow: Flow,
    /// The boots of the ends, 0 in format 1.
    pub sboot: u64,
    pub dboot: u64,
    /// Up to this number the messages of the flow are acknowledged.
    pub base: u64,
    /// Up to this number the sender has the messages of the flow.
    pub have: u64,
    pub ack: Option<ObjectRef<'a>>,
    pub rels: Four<ObjectRef<'a>>,
}

/// The sections of a format that all of these bytes are, with signatures of this length, or what is first wrong from the left.
#[tactic(auto, unfolding(crate::specs::Sections::sections_of_in, crate::specs::Sections::sections_at_in))]
pub(crate) fn sections_of<'a>(
    bytes: &'a [u8],
    format: u8,
    signature_len: usize,
) -> Result<Sections<'a>, SectionRefused>
    ensures read { Gives as_contents result (sections_of_in format signature_len bytes.now) }
    ensures of_format { IfOk result (AreOf format) }
{
    if has_document(bytes, format) {
        return all_document(&bytes[1..]);
    }
    all_plain(bytes, format, signature_len)
}

/// Whether the control section is a document.
fn has_document(bytes: &[u8], format: u8) -> bool
    ensures is { result ≡ has_document format bytes.now }
    ensures some { IsTrue result → 1 ≤ length bytes.now }
{
    format != FORMAT_1 && !bytes.is_empty() && bytes[0] == DOCUMENT
}

/// The document that all of these bytes are, after the byte that says that there is one.
fn all_document<'a>(bytes: &'a [u8]) -> Result<Sections<'a>, SectionRefused>
    ensures read { Gives as_contents result (whole_of (document_at bytes.now)) }
    ensures of_format { (format : ℕ) → IfOk result (AreOf format) }
{
    let mut reader = Reader::new(bytes);
    let sections = document_at(&mut reader)?;
    if reader.left() != 0 {
        return Err(SectionRefused::Tail);
    }
    Ok(sections)
}

/// The sections without a document that all of these bytes are.
fn all_plain<'a>(
    bytes: &'a [u8],
    format: u8,
    signature_len: usize,
) -> Result<Sections<'a>, SectionRefused>
    ensures read { Gives as_contents result (whole_of (plain_at format signature_len bytes.now)) }
    ensures of_format { IfOk result (AreOf format) }
{
    let mut reader = Reader::new(bytes);
    let sections = plain_at(&mut reader, format, signature_len)?;
    if reader.left() != 0 {
        return Err(SectionRefused::Tail);
    }
    Ok(sections)
}

#[tactic(auto, unfolding(crate::specs::Sections::plain_at, crate::specs::Grammar::number))]
fn plain_at<'a>(
    reader: &mut Reader<'a>,
    format: u8,
    signature_len: usize,
) -> Result<Sections<'a>, SectionRefused>
    ensures read { Gives (λ s. (as_contents s, reader.new)) result (plain_at format signature_len reader.old) }
    ensures of_format { IfOk result (AreOf format) }
{
    let weight = weight_at(reader, format, signature_len)?;
    let prio_ack = reader.u64()?;
    let prios = prios_at(reader, format, signature_len)?;
    let slot = slot_at(reader, format, signature_len)?;
    let paths = paths_at(reader, format, signature_len)?;
    let probe = probes_at(reader, format)?;
    let epoch = epoch_at(reader, format, signature_len)?;
    Ok(Sections {
        document: None,
        weight,
        prio_ack,
        prios,
        slot,
        paths,
        probe,
        epoch,
    })
}

/// A document and what follows it, after the byte that says that there is one.
#[tactic(auto, unfolding(crate::specs::Sections::document_at))]
fn document_at<'a>(reader: &mut Reader<'a>) -> Result<Sections<'a>, SectionRefused>
    ensures read { Gives (λ s. (as_contents s, reader.new)) result (document_at reader.old) }
    ensures of_format { (format : ℕ) → IfOk result (AreOf format) }
{
    let document = sized_at(reader)?;
    zeros_at(reader)?;
    Ok(Sections {
        document: Some(document),
        weight: None,
        prio_ack: 0,
        prios: Four::new(),
        slot: None,
        paths: None,
        probe: None,
        epoch: None,
    })
}

#[tactic(auto, unfolding(crate::specs::Sections::sized, crate::specs::Grammar::number, crate::specs::Grammar::piece))]
fn sized_at<'a>(reader: &mut Reader<'a>) -> Result<&'a [u8], SectionRefused>
    ensures { Gives (λ d. (d.now, reader.new)) result (sized reader.old) }
{
    let len = reader.u16()?;
    Ok(reader.take(usize::from(len))?)
}

/// The numbers after a document, which must be 0.
#[tactic(auto, unfolding(crate::specs::Sections::zeros, crate::specs::Grammar::limited, crate::specs::Grammar::number))]
fn zeros_at(reader: &mut Reader<'_>) -> Result<(), SectionRefused>
    ensures { Gives (λ _. (0, reader.new)) result (zeros reader.old) }
{
    if reader.u64()? != 0 {
        return Err(SectionRefused::Count);
    }
    zero_at(reader)?;
    zero_at(reader)?;
    zero_at(reader)?;
    zero_at(reader)?;
    zero_at(reader)
}

#[tactic(auto, unfolding(crate::specs::Grammar::limited, crate::specs::Grammar::number))]
fn zero_at(reader: &mut Reader<'_>) -> Result<(), SectionRefused>
    ensures { Gives (λ _. (0, reader.new)) result (limited 1 0 reader.old) }
{
    if reader.u8()? != 0 {
        return Err(SectionRefused::Count);
    }
    Ok(())
}

#[tactic(auto, unfolding(crate::specs::Weights::weights))]
fn weight_at<'a>(
    reader: &mut Reader<'a>,
    format: u8,
    signature_len: usize,
) -> Result<Option<ObjectRef<'a>>, SectionRefused>
    ensures read { Gives (λ o. (as_list (option_map as_object o), reader.new)) result (weights format signature_len reader.old) }
    ensures of_format { IfOk result (λ o. IfSome o (IsOf format)) }
{
    if !has_one(reader)? {
        return Ok(None);
    }
    Ok(Some(object_at(reader, format, Kind::Weight, signature_len)?))
}

#[tactic(auto, unfolding(crate::specs::Prioritized::prios))]
fn prios_at<'a>(
    reader: &mut Reader<'a>,
    format: u8,
    signature_len: usize,
) -> Result<Four<(u64, ObjectRef<'a>)>, SectionRefused>
    ensures read { Gives (λ m. (map as_numbered m, reader.new)) result (prios format signature_len reader.old) }
    ensures of_format { IfOk result (All (λ p. IsOf format p.1)) }
{
    let count = limited_at(reader, most(format, Kind::Prio))?;
    many_numbered(reader, count, format, signature_len)
}

/// So many messages with their link numbers.
#[tactic(auto, using(crate::proofs::TimesLemmas::read_in_turn))]
fn many_numbered<'a>(
    reader: &mut Reader<'a>,
    count: u8,
    format: u8,
    signature_len: usize,
) -> Result<Four<(u64, ObjectRef<'a>)>, SectionRefused>
    requires { count ≤ MAX_MESSAGES }
    ensures read { Gives (λ m. (map as_numbered m, reader.new)) result (times (numbered format signature_len) count reader.old) }
    ensures many { IfOk result (λ m. length m ≡ count) }
    ensures of_format { IfOk result (All (λ p. IsOf format p.1)) }
{
    if count == 0 {
        return Ok(Four::new());
    }
    let first = numbered_at(reader, format, signature_len)?;
    let others = many_numbered(reader, count - 1, format, signature_len)?;
    Ok(others.led_by(first))
}

#[tactic(auto, unfolding(crate::specs::Prioritized::numbered, crate::specs::Grammar::number))]
fn numbered_at<'a>(
    reader: &mut Reader<'a>,
    format: u8,
    signature_len: usize,
) -> Result<(u64, ObjectRef<'a>), SectionRefused>
    ensures read { Gives (λ m. (as_numbered m, reader.new)) result (numbered format signature_len reader.old) }
    ensures of_format { IfOk result (λ p. IsOf format p.1) }
{
    let link_number = reader.u64()?;
    let message = object_at(reader, format, Kind::Prio, signature_len)?;
    Ok((link_number, message))
}

/// An object after its flag, or none.
#[tactic(auto, unfolding(crate::specs::Reliable::ack))]
pub(crate) fn flagged_object_at<'a>(
    reader: &mut Reader<'a>,
    format: u8,
    kind: Kind,
    signature_len: usize,
) -> Result<Option<ObjectRef<'a>>, SectionRefused>
    ensures read { Gives (λ o. (option_map as_object o, reader.new)) result (ack format kind signature_len reader.old) }
    ensures of_format { IfOk result (λ o. IfSome o (IsOf format)) }
{
    if !has_one(reader)? {
        return Ok(None);
    }
    Ok(Some(object_at(reader, format, kind, signature_len)?))
}

/// How many objects of a kind a frame has at most.
pub(crate) fn most(format: u8, kind: Kind) -> u8
    ensures most { result ≡ most format kind }
    ensures few { result ≤ MAX_MESSAGES }
{
    match kind {
        Kind::Prio => 4,
        Kind::Rel if format == FORMAT_1 => 4,
        Kind::Rel => 2,
        _ => 1,
    }
}

/// A count of at most so many.
#[tactic(auto, unfolding(crate::specs::Grammar::limited, crate::specs::Grammar::number))]
pub(crate) fn limited_at(reader: &mut Reader<'_>, most: u8) -> Result<u8, SectionRefused>
    ensures read { Gives (λ n. (n, reader.new)) result (count most reader.old) }
    ensures few { IfOk result (λ n. n ≤ most) }
{
    let count = reader.u8()?;
    if count > most {
        return Err(SectionRefused::Count);
    }
    Ok(count)
}

/// The probe section, which format 1 lacks.
#[tactic(auto, unfolding(crate::specs::Probes::probes))]
fn probes_at(reader: &mut Reader<'_>, format: u8) -> Result<Option<Probe>, SectionRefused>
    ensures { Gives (λ p. (p, reader.new)) result (probes format reader.old) }
{
    if format == FORMAT_1 {
        return Ok(None);
    }
    if !has_one(reader)? {
        return Ok(None);
    }
    Ok(Some(probe_at(reader)?))
}

#[tactic(auto, unfolding(crate::specs::Probes::probe_at, crate::specs::Grammar::number, crate::specs::Grammar::piece))]
fn probe_at(reader: &mut Reader<'_>) -> Result<Probe, SectionRefused>
    ensures { Gives (λ p. (p, reader.new)) result (probe_at reader.old) }
{
    let number = reader.u64()?;
    let told = reader.take(8)?;
    let echo = reader.u64()?;
    let shown = reader.take(32)?;
    let mut nonce = [0u8; 8];
    nonce.copy_from_slice(told);
    let mut proof = [0u8; 32];
    proof.copy_from_slice(shown);
    Ok(Probe {
        number,
        nonce,
        echo,
        proof,
    })
}

/// The epoch section, which format 1 lacks.
#[tactic(auto, unfolding(crate::specs::Probes::epoch, crate::specs::Reliable::ack))]
fn epoch_at<'a>(
    reader: &mut Reader<'a>,
    format: u8,
    signature_len: usize,
) -> Result<Option<ObjectRef<'a>>, SectionRefused>
    ensures read { Gives (λ o. (option_map as_object o, reader.new)) result (epoch format signature_len reader.old) }
    ensures of_format { IfOk result (λ o. IfSome o (IsOf format)) }
{
    if format == FORMAT_1 {
        return Ok(None);
    }
    flagged_object_at(reader, format, Kind::Epoch, signature_len)
}

/// A count, or a flag, of at most one: whether it is one.
#[tactic(auto, unfolding(crate::specs::Grammar::limited, crate::specs::Grammar::number))]
pub(crate) fn has_one(reader: &mut Reader<'_>) -> Result<bool, SectionRefused>
    ensures { Gives (λ one. (if one then 1 else 0, reader.new)) result (count 1 reader.old) }
{
    match reader.u8()? {
        0 => Ok(false),
        1 => Ok(true),
        _ => Err(SectionRefused::Count),
    }
}
