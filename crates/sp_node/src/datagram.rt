// A datagram arrives from a neighbour.
ghost use Rattle.std.specs.Prelude.{◌≡◌, ◌≤◌, ◌<◌, ◌+◌, ◌==◌, ◌&&◌, [], ◌∷◌, IfErr, IfOk, IfSome, OnErr, Ok, None as Nothing, Some as There, length};
ghost use Rattle.std.specs.Prelude.{option_map};
ghost use Rattle.std.specs.Prelude.{position, slice_index, if◌then◌else◌};
ghost use Rattle.sp_base.specs.Refusals.{Gives};
ghost use Rattle.sp_base.specs.Rows.{replace_where};
ghost use Rattle.sp_node_state.specs.Publications.{document_checks};
ghost use Rattle.sp_rules.specs.Node.{called, is_link, link_in, version_of, with_link};
ghost use Rattle.sp_rules.specs.Parts.{changes};
ghost use Rattle.sp_rules.specs.Versions.{kept_version};
ghost use Rattle.sp_rules.specs.declared.node.TheConstants.{MAX_CALLS};
ghost use Rattle.laws_node.specs.Nodes.{IsKept};
ghost use Rattle.sp_node_arrivals.specs.Admitted.{IsAdmitted};
ghost use Rattle.sp_node_format.specs.Format.{format_of};
ghost use Rattle.sp_frame.specs.Frames.{opened_in};
ghost use Rattle.sp_frame.specs.OfFormat.{AreOf};
ghost use Rattle.sp_node.specs.Arrived.{heard_with, met_by, pieces_with};
ghost use Rattle.sp_node.specs.Calls.{Datagrams};
ghost use Rattle.sp_node.specs.Life.{datagram_checks, datagram_tags};
ghost use Rattle.sp_node_arrivals.specs.Work.{frame_checks};
ghost use Rattle.sp_frame.specs.declared.sections.TheConstants.{MOST_OBJECTS};
ghost use Rattle.sp_node_state.specs.ReadyStates.{IsAnswered};
ghost use Rattle.sp_rules.specs.Arrivals.{greeted, has_risen};
ghost use Rattle.sp_rules.specs.Arrivals.{arrival_at, document_at, heard_after, is_tagged, link_after, no_frame};
ghost use Rattle.sp_rules.specs.Arrivals.{pieces_in, pieces_where, reply_at, sections_in};
ghost use Rattle.sp_rules.specs.Documents.{after_publish, document_answer, publish_effects};
ghost use Rattle.sp_rules.specs.Handle.{handle_all};

use crate::met::after_link;
use sp_base::{Listed, Memory, NodeId};
use sp_frame::{Frame, FrameRefused, Head, Sections};
use sp_link::Link;
use sp_msg::Effects;
use sp_node_arrivals::{Arrival, Arrived, arrive, greet};
use sp_node_parts::Fixed;
use sp_node_state::State;
use sp_rules::{Item, LinkAnswer, LinkReply, NodeRefused, Step, Taken};
use sp_sign::Checker;
use std::alloc::Global;

/// What became of a datagram at its link: the reply, the link after it, whether another life of the neighbour began, the version that is kept of it then,
/// where it told one, and the sections that are to be handled, or the document, if any.
#[derive(Debug, Drop)]
struct Passage<'a> {
    reply: LinkReply,
    link: Link,
    risen: bool,
    heard: Option<u32>,
    sections: Option<Sections<'a>>,
    document: Option<&'a [u8]>,
}

/// A datagram is tested by its link, and where it passes, its objects are taken in order, or its document is handed to the node.
pub fn datagram(
    state: &mut State,
    checker: &mut Checker,
    tags: &mut u64,
    alloc: Global,
    from: NodeId,
    bytes: &[u8],
) -> Result<Step<Taken>, NodeRefused>
    requires kept { IsKept (format_of state.old.fixed) state.old }
    requires keys { checker.old.nodes ≡ state.old.fixed.topology.nodes }
    ensures step { Datagrams state.old from bytes.now result state.new }
    ensures keys { checker.new.nodes ≡ checker.old.nodes }
    ensures work { checker.new.checks ≤ checker.old.checks + datagram_checks state.old from bytes.now }
    ensures few { checker.new.checks ≤ checker.old.checks + MOST_OBJECTS }
    ensures tags { tags.new ≤ tags.old + datagram_tags state.old from bytes.now }
{
    let place = state.place_for(from)?;
    let passage = passed(state, place, from, bytes, tags);
    match passage.document {
        Some(document) => { take_document(state, checker, alloc, place, from, &passage, document) }
        None => take_pieces(state, checker, alloc, place, from, &passage),
    }
}

/// Takes the objects of the frame that came over the link in this place, if there are any. After `Memory` the node is as before.
fn take_pieces(
    state: &mut State,
    checker: &mut Checker,
    alloc: Global,
    place: usize,
    from: NodeId,
    passage: &Passage<'_>,
) -> Result<Step<Taken>, NodeRefused>
    requires kept { IsKept (format_of state.old.fixed) state.old }
    requires answered { IsAnswered state.old from place }
    requires keys { checker.old.nodes ≡ state.old.fixed.topology.nodes }
    requires formats { IfSome passage.now.sections (AreOf state.old.fixed.topology.format) }
    ensures reply { IfOk result (λ step. step.reply.link ≡ passage.entry.now.reply) }
    ensures taken { IfOk result (λ step. IsAdmitted
        (handle_all (format_of state.old.fixed) (arrival_at state.old from) (greeted state.old.fixed.epochs passage.entry.now.risen from state.old.parts)
        (pieces_with passage.entry.now.sections)) state.new.parts step.reply.items step.effects.list) }
    ensures others { IfOk result (λ _. state.new ≡ record (called state.old (with_link state.old from passage.entry.now.link) state.new.parts)
        { heard = heard_with state.old.heard from passage.entry.now.heard }) }
    ensures memory { IfErr result (λ refused. refused ≡ NodeRefused.Memory) }
    ensures as_before { OnErr result (state.new ≡ state.old) }
    ensures keys { checker.new.nodes ≡ checker.old.nodes }
    ensures work { checker.new.checks ≤ checker.old.checks + frame_checks (arrival_at state.old from) state.old.parts (pieces_with passage.entry.now.sections) }
    ensures few { checker.new.checks ≤ checker.old.checks + MOST_OBJECTS }
{
    let arrived = admit_sections(
        state,
        checker,
        alloc,
        from,
        passage.risen,
        &passage.sections,
    )?;
    answered(state, place, from, passage.link);
    note(state, from, passage.heard);
    Ok(Step {
        reply: Taken {
            link: passage.reply,
            items: arrived.items,
        },
        effects: arrived.effects,
    })
}

/// Hands the document of the frame that came over the link in this place to the node. After `Memory` the node is as before.
fn take_document(
    state: &mut State,
    checker: &mut Checker,
    alloc: Global,
    place: usize,
    from: NodeId,
    passage: &Passage<'_>,
    document: &[u8],
) -> Result<Step<Taken>, NodeRefused>
    requires kept { IsKept (format_of state.old.fixed) state.old }
    requires answered { IsAnswered state.old from place }
    ensures reply { IfOk result (λ step. step.reply.link ≡ passage.entry.now.reply) }
    ensures items { IfOk result (λ step. step.reply.items ≡ Item.Document (document_answer (format_of state.old.fixed) state.old document.now) ∷ []) }
    ensures told { IfOk result (λ step.
        step.effects.list ≡ publish_effects (format_of state.old.fixed) (met_by state.old from passage.entry.now) document.now) }
    ensures state { IfOk result (λ _. state.new ≡ after_publish (format_of state.old.fixed) (met_by state.old from passage.entry.now) document.now) }
    ensures memory { IfErr result (λ refused. refused ≡ NodeRefused.Memory) }
    ensures as_before { OnErr result (state.new ≡ state.old) }
    ensures keys { checker.new.nodes ≡ checker.old.nodes }
    ensures work { checker.new.checks ≤ checker.old.checks + document_checks state.old document.now }
{
    let publication = state.judge_document(alloc, checker, document)?;
    let items = one_item(alloc, Item::Document(publication.answer))?;
    meet(state, from, passage.risen);
    answered(state, place, from, passage.link);
    note(state, from, passage.heard);
    let Step { effects, .. } = state.adopt(publication);
    Ok(Step {
        reply: Taken {
            link: passage.reply,
            items,
        },
        effects,
    })
}

/// Where another life of the neighbour began, what it reported is forgotten.
fn meet(state: &mut State, from: NodeId, risen: bool)
    ensures { state.new ≡ record state.old { parts = greeted state.old.fixed.epochs risen from state.old.parts } }
{
    let at = Arrival {
        fixed: &state.fixed,
        time: state.now,
        from,
        risen,
    };
    greet(&at, &mut state.core);
}

/// From now on this version is kept of the neighbour, where it told one.
fn note(state: &mut State, from: NodeId, heard: Option<u32>)
    ensures { state.new ≡ record state.old { heard = heard_with state.old.heard from heard } }
{
    if let Some(version) = heard {
        state.hear(from, version);
    }
}

/// One answer.
fn one_item(alloc: Global, item: Item) -> Result<Listed<Item>, Memory>
    ensures { IfOk result (λ items. items ≡ item ∷ []) }
{
    let mut items = Listed::from_vec(Vec::new(alloc));
    items.push(item)?;
    Ok(items)
}

/// What becomes of a datagram at the link in this place.
fn passed<'a>(
    state: &State,
    place: usize,
    from: NodeId,
    bytes: &'a [u8],
    tags: &mut u64,
) -> Passage<'a>
    requires kept { IsKept (format_of state.now.fixed) state.now }
    requires answered { IsAnswered state.now from place }
    ensures reply { result.reply ≡ reply_at (format_of state.entry.now.fixed) state.entry.now from bytes.now }
    ensures link { result.link ≡ link_after (format_of state.entry.now.fixed) state.entry.now from bytes.now }
    ensures heard { heard_with state.entry.now.heard from result.heard ≡ heard_after (format_of state.entry.now.fixed) state.entry.now from bytes.now }
    ensures pieces { pieces_with result.sections ≡ pieces_where (reply_at (format_of state.entry.now.fixed) state.entry.now from bytes.now)
        (pieces_in state.entry.now.fixed (sections_in (format_of state.entry.now.fixed) state.entry.now.fixed bytes.now)) }
    ensures document { option_map (λ d. d.now) result.document ≡ document_at (format_of state.entry.now.fixed) state.entry.now from bytes.now }
    ensures risen { result.risen ≡ has_risen (link_in state.entry.now from) (link_after (format_of state.entry.now.fixed) state.entry.now from bytes.now) }
    ensures formats { IfSome result.sections (AreOf state.entry.now.fixed.topology.format) }
    ensures work { tags.new ≤ tags.old + datagram_tags state.entry.now from bytes.now }
{
    let mut link = state.link_at(place, from);
    let before = link;
    let frame = match opened(&state.fixed, bytes) {
        Ok(frame) => frame,
        Err(refused) => {
            return Passage {
                reply: no_frame(refused),
                link,
                risen: false,
                heard: None,
                sections: None,
                document: None,
            };
        }
    };
    let answer = link.accept(&frame, tags);
    let risen = has_risen(&before, &link);
    let heard = version_told(state, from, &before, answer, risen, &frame.head());
    let met = after_link(state, from, answer, &frame);
    Passage {
        reply: met.reply,
        link,
        risen,
        heard,
        sections: met.sections,
        document: met.document,
    }
}

/// The version that is kept of a neighbour after its frame, where the frame tells one: by its head, by the boot that was known of it before, and by whether
/// that rose.
fn version_told(
    state: &State,
    from: NodeId,
    before: &Link,
    answer: LinkAnswer,
    risen: bool,
    head: &Head,
) -> Option<u32>
    ensures { result ≡ (if changes state.entry.now.fixed && is_tagged answer
        then There (kept_version state.entry.now.fixed.epochs risen (head.now.boot == before.now.peer_boot) (version_of state.entry.now from) head.now.topology)
        else Nothing) }
{
    if !state.changes() || !is_tagged(answer) {
        return None;
    }
    Some(kept_version(
        state.fixed.epochs,
        risen,
        head.boot == before.peer_boot,
        state.version_of(from),
        head.topology,
    ))
}

/// Whether the tag is right, and the frame names the ends of the link.
fn is_tagged(answer: LinkAnswer) -> bool
    ensures { result ≡ is_tagged answer }
{
    match answer {
        LinkAnswer::NotForMe => false,
        LinkAnswer::BadTag => false,
        _ => true,
    }
}

/// The version that is kept of a neighbour after a frame with this one.
fn kept_version(epochs: bool, rises: bool, known: bool, kept: u32, theirs: u32) -> u32
    ensures { result ≡ kept_version epochs rises known kept theirs }
{
    if !epochs {
        return kept.max(theirs);
    }
    if rises {
        return theirs;
    }
    if known { kept.max(theirs) } else { kept }
}

/// The datagram as a frame of the node's format, or the first test of its bytes that fails.
fn opened<'a>(fixed: &Fixed, bytes: &'a [u8]) -> Result<Frame<'a>, FrameRefused>
    ensures opened { Gives (λ frame. frame) result (opened_in fixed.now.topology.format bytes.now) }
    ensures of_format { IfOk result (λ frame. slice_index frame 2 ≡ fixed.now.topology.format) }
{
    Frame::open_in(bytes, fixed.topology.format)
}

/// A datagram of a neighbour was answered, and left its link, which stands in this place, like this.
fn answered(state: &mut State, place: usize, v: NodeId, link: Link)
    requires place { position (is_link v) state.old.links ≡ There place }
    requires within { place < length state.old.links }
    requires left { state.old.calls < MAX_CALLS }
    ensures { state.new ≡ called state.old (with_link state.old v link) state.old.parts }
{
    put_link(&mut state.links, place, v, link);
    state.calls += 1;
}

/// Takes the objects of these sections, if there are any. Before them, where another life of the neighbour began, what it reported is forgotten. After
/// `Memory` the node is as before.
fn admit_sections(
    state: &mut State,
    checker: &mut Checker,
    alloc: Global,
    from: NodeId,
    risen: bool,
    sections: &Option<Sections<'_>>,
) -> Result<Arrived, Memory>
    requires kept { IsKept (format_of state.old.fixed) state.old }
    requires keys { checker.old.nodes ≡ state.old.fixed.topology.nodes }
    requires formats { IfSome sections.now (AreOf state.old.fixed.topology.format) }
    ensures taken { IfOk result (λ a. IsAdmitted
        (handle_all (format_of state.old.fixed) (arrival_at state.old from) (greeted state.old.fixed.epochs risen from state.old.parts)
        (pieces_with sections.now)) state.new.parts a.items a.effects.list) }
    ensures others { IfOk result (λ _. state.new ≡ record state.old { parts = state.new.parts }) }
    ensures as_before { OnErr result (state.new ≡ state.old) }
    ensures keys { checker.new.nodes ≡ checker.old.nodes }
    ensures work { checker.new.checks ≤ checker.old.checks + frame_checks (arrival_at state.old from) state.old.parts (pieces_with sections.now) }
    ensures few { checker.new.checks ≤ checker.old.checks + MOST_OBJECTS }
{
    let at = Arrival {
        fixed: &state.fixed,
        time: state.now,
        from,
        risen,
    };
    match sections {
        None => {
            let arrived = nothing_admitted(alloc)?;
            greet(&at, &mut state.core);
            Ok(arrived)
        }
        Some(sections) => arrive(alloc, &at, &mut state.core, checker, sections),
    }
}

/// The link to a neighbour, which stands in this place, is this one from now on.
#[tactic(auto, using(sp_base::proofs::RowLemmas::placed))]
fn put_link(links: &mut Vec<Link>, place: usize, v: NodeId, link: Link)
    requires place { position (is_link v) links.old.items ≡ There place }
    requires within { place < length links.old.items }
    ensures { links.new.items ≡ replace_where (is_link v) link links.old.items }
{
    links[place] = link;
}

/// Nothing was taken. It takes no memory.
fn nothing_admitted(alloc: Global) -> Result<Arrived, Memory>
    ensures items { IfOk result (λ a. a.items ≡ []) }
    ensures effects { IfOk result (λ a. a.effects.list ≡ []) }
{
    let Ok(effects) = Effects::with_room(alloc, 0) else {
        return Err(Memory);
    };
    Ok(Arrived {
        items: Listed::from_vec(Vec::new(alloc)),
        effects,
    })
}

/// Why the bytes are no frame.
fn no_frame(refused: FrameRefused) -> LinkReply
    ensures { There result ≡ no_frame (Err refused) }
{
    match refused {
        FrameRefused::TooLong => LinkReply::TooLong,
        FrameRefused::Short(short) => LinkReply::Short(short),
        FrameRefused::Magic => LinkReply::Magic,
        FrameRefused::Version => LinkReply::Version,
    }
}

/// Whether the boot of the neighbour, as it is known, rose.
fn has_risen(old: &Link, new: &Link) -> bool
    ensures { result ≡ has_risen old.now new.now }
{
    old.peer_boot < new.peer_boot
}
