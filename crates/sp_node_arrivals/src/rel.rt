// The reliable messages of a slot: whether each may be new, its copy with the memory of its flow, and its taking.
ghost use Rattle.std.specs.Prelude.{◌≡◌, ◌≢◌, ◌≤◌, ◌+◌, ◌-◌, [], ◌∷◌, All, Bool, false, true};
ghost use Rattle.std.specs.Prelude.{IfOk, IfSome, drop, is_some, length, map};
ghost use Rattle.sp_base.specs.declared.limits.TheConstants.{MAX_MESSAGES};
ghost use Rattle.sp_frame.specs.OfFormat.{IsOf};
ghost use Rattle.sp_frame.specs.Views.{as_object};
ghost use Rattle.sp_msg.specs.Bodies.{payload_of};
ghost use Rattle.sp_msg.specs.Views.{as_body};
ghost use Rattle.sp_rel.specs.Places.{IsPlace};
ghost use Rattle.sp_rel.specs.Seated.{IsSeated};
ghost use Rattle.sp_rules.specs.Answers.{is_new, rel_answer};
ghost use Rattle.sp_rules.specs.Changes.{FitsAFormat};
ghost use Rattle.sp_rules.specs.Handle.{handle_all, rel_handled, rel_item};
ghost use Rattle.sp_rules.specs.Kflow.{came_over};
ghost use Rattle.sp_rules.specs.Parts.{flows_of};
ghost use Rattle.sp_rules.specs.declared.kflow.FlowKind.{FlowKind};
ghost use Rattle.sp_rules.specs.Lives.{is_dated};
ghost use Rattle.sp_rules.specs.Pieces.{RelPiece};
ghost use Rattle.sp_rules.specs.Rel.{judge_rel_of};
ghost use Rattle.sp_rules.specs.Told.{told};
ghost use Rattle.sp_node_arrivals.specs.Arrival.{as_arrival};
ghost use Rattle.sp_node_arrivals.specs.Done.{IsDone};
ghost use Rattle.sp_node_arrivals.specs.Rel.{AreRelsReady, IsRelReady, StaysReady, ground_of, is_followed, may_be_new, rel_checks, rels_checks};
ghost use Rattle.sp_node_format.specs.Format.{format_of};

use crate::arrival::Arrival;
use crate::row::{Row, came_over, rel_item};
use crate::signed::{copy_of, is_right, recall};
use sp_base::{Bytes, Four, Memory, NodeId};
use sp_frame::ObjectRef;
use sp_msg::{BodyRef, Effects, Kept};
use sp_node_parts::Parts;
use sp_rel::{RelJudged, Seat};
use sp_rules::{Item, RelAnswer};
use sp_sign::Checker;
use std::alloc::Global;

/// Makes the messages from this place on ready. `moved` is whether something that is ready comes before them in the slot.
pub(crate) fn ready_from(
    alloc: Global,
    at: &Arrival<'_>,
    parts: &Parts,
    checker: &mut Checker,
    row: Row,
    rels: &Four<ObjectRef<'_>>,
    place: usize,
    moved: bool,
) -> Result<Four<Option<(Kept, Bytes, Seat)>>, Memory>
    requires formats { All (IsOf at.now.fixed.now.topology.format) rels.now }
    requires keys { checker.old.nodes ≡ at.now.fixed.now.topology.nodes }
    requires place { IsPlace (flows_of row.kind parts.now).flows row.place }
    ensures ready { IfOk result (AreRelsReady moved (ground_of (as_arrival at.now) parts.now) (flows_of row.kind parts.now) row.place.flow
        (map as_object (drop place rels.now))) }
    ensures many { IfOk result (λ ready. length ready ≡ length rels.now - place) }
    ensures keys { checker.new.nodes ≡ checker.old.nodes }
    ensures work { checker.new.checks ≤ checker.old.checks
        + rels_checks moved (ground_of (as_arrival at.now) parts.now) (flows_of row.kind parts.now) row.place.flow (map as_object (drop place rels.now)) }
    ensures few { checker.new.checks ≤ checker.old.checks + (length rels.now - place) }
{
    let Some(object) = rels.get(place) else {
        return Ok(Four::new());
    };
    let first = ready_one(alloc, at, parts, checker, row, object, moved)?;
    let moved = moved || first.is_some();
    let others = ready_from(alloc, at, parts, checker, row, rels, place + 1, moved)?;
    Ok(others.led_by(first))
}

fn ready_one(
    alloc: Global,
    at: &Arrival<'_>,
    parts: &Parts,
    checker: &mut Checker,
    row: Row,
    object: &ObjectRef<'_>,
    moved: bool,
) -> Result<Option<(Kept, Bytes, Seat)>, Memory>
    requires format { IsOf at.now.fixed.now.topology.format object.now }
    requires keys { checker.old.nodes ≡ at.now.fixed.now.topology.nodes }
    requires place { IsPlace (flows_of row.kind parts.now).flows row.place }
    ensures ready { IfOk result (IsRelReady moved (ground_of (as_arrival at.now) parts.now) (flows_of row.kind parts.now) row.place.flow
        (as_object object.now)) }
    ensures keys { checker.new.nodes ≡ checker.old.nodes }
    ensures work { checker.new.checks ≤ checker.old.checks
        + rel_checks moved (ground_of (as_arrival at.now) parts.now) (flows_of row.kind parts.now) row.place.flow (as_object object.now) }
    ensures new { IfOk result (λ ready. is_some ready
        ≡ is_followed moved (ground_of (as_arrival at.now) parts.now) (flows_of row.kind parts.now) row.place.flow (as_object object.now)) }
    ensures few { checker.new.checks ≤ checker.old.checks + 1 }
{
    if !parts.lives.is_dated(&object.body) {
        return Ok(None);
    }
    if !came_over(parts, at.from, &object.body) {
        return Ok(None);
    }
    if !may_be_new(moved, judge(parts, row, &object.body)) {
        return Ok(None);
    }
    if !is_right(at, checker, object) {
        return Ok(None);
    }
    let kept = copy_of(alloc, object)?;
    let payload = payload_of(alloc, &object.body)?;
    let Ok(seat) = parts.flows(row.kind).seat(alloc, row.place) else {
        return Err(Memory);
    };
    Ok(Some((kept, payload, seat)))
}

/// Lets go what was made ready, one after another.
pub(crate) fn leave(ready: Four<Option<(Kept, Bytes, Seat)>>) {
    if let Some((_, others)) = ready.split() {
        leave(others);
    }
}

/// Takes the messages from this place on, and answers to each.
pub(crate) fn admit_from(
    at: &Arrival<'_>,
    parts: &mut Parts,
    row: Row,
    rels: &Four<ObjectRef<'_>>,
    place: usize,
    ready: Four<Option<(Kept, Bytes, Seat)>>,
    out: &mut Effects,
) -> Four<Item>
    requires place { IsPlace (flows_of row.kind parts.old).flows row.place }
    requires ready { AreRelsReady false (ground_of (as_arrival at.now) parts.old) (flows_of row.kind parts.old) row.place.flow
        (map as_object (drop place rels.now)) ready }
    requires room { MAX_MESSAGES - place ≤ out.old.room }
    ensures done { IsDone
        (handle_all (format_of at.now.fixed.now) (as_arrival at.now) parts.old (map (RelPiece row.kind row.place.flow) (map as_object (drop place rels.now))))
        parts.new result out.old out.new }
    ensures many { length result ≡ length rels.now - place }
    ensures room { out.old.room ≤ out.new.room + (MAX_MESSAGES - place) }
{
    let Some((first, others)) = ready.split() else {
        return Four::new();
    };
    let Some(object) = rels.get(place) else {
        unreachable!()
    };
    let item = admit_one(at, parts, row, object, first, out);
    let items = admit_from(at, parts, row, rels, place + 1, others, out);
    items.led_by(item)
}

fn admit_one(
    at: &Arrival<'_>,
    parts: &mut Parts,
    row: Row,
    object: &ObjectRef<'_>,
    ready: Option<(Kept, Bytes, Seat)>,
    out: &mut Effects,
) -> Item
    requires place { IsPlace (flows_of row.kind parts.old).flows row.place }
    requires ready { IsRelReady false (ground_of (as_arrival at.now) parts.old) (flows_of row.kind parts.old) row.place.flow (as_object object.now) ready }
    requires room { 1 ≤ out.old.room }
    ensures done { IsDone
        (handle_all (format_of at.now.fixed.now) (as_arrival at.now) parts.old (RelPiece row.kind row.place.flow (as_object object.now) ∷ []))
        parts.new (result ∷ []) out.old out.new }
    ensures ground { ground_of (as_arrival at.now) parts.new ≡ ground_of (as_arrival at.now) parts.old }
    ensures stays { StaysReady (is_some ready) (ground_of (as_arrival at.now) parts.old) row.place.flow
        (flows_of row.kind parts.old) (flows_of row.kind parts.new) }
    ensures room { out.old.room ≤ out.new.room + 1 }
    ensures place { IsPlace (flows_of row.kind parts.new).flows row.place }
{
    recall(object);
    let answer = take(at.from, parts, row, object, ready, out);
    rel_item(row.kind, answer)
}

/// What is said of a message of a slot, but for its signature.
fn judge(parts: &Parts, row: Row, body: &BodyRef<'_>) -> RelJudged
    requires place { IsPlace (flows_of row.kind parts.now).flows row.place }
    ensures { result ≡ judge_rel_of (flows_of row.kind parts.now) row.place.flow (as_body body.now) }
{
    match body {
        BodyRef::Rel(rel) => parts
            .flows(row.kind)
            .judge_rel(row.place, rel.src, rel.dst, rel.seq),
        BodyRef::Krel(krel) => parts
            .flows(row.kind)
            .judge_rel(row.place, krel.src, krel.dst, krel.seq),
        _ => RelJudged::BadEnd,
    }
}

/// Whether a message that is judged so may be new when its turn comes, by whether something new comes before it in its slot. A new acknowledgement
/// makes room, and may be of messages that never came; a new message is the one that a later message waits for. Neither changes an end, and what is
/// old or ahead stays so.
fn may_be_new(moved: bool, judged: RelJudged) -> bool
    ensures { result ≡ may_be_new moved judged }
{
    match judged {
        RelJudged::BadEnd | RelJudged::Old | RelJudged::Ahead => false,
        RelJudged::Gap | RelJudged::Full | RelJudged::InboxFull => moved,
        RelJudged::New => true,
    }
}

/// A copy of what a message carries.
fn payload_of(alloc: Global, body: &BodyRef<'_>) -> Result<Bytes, Memory>
    ensures { IfOk result (λ payload. payload ≡ payload_of (as_body body.now)) }
{
    let payload = match body {
        BodyRef::Prio(prio) => prio.payload,
        BodyRef::Rel(rel) => rel.payload,
        BodyRef::Krel(krel) => krel.payload,
        BodyRef::Ack(_) | BodyRef::Weight(_) | BodyRef::Kack(_) | BodyRef::Epoch(_) => &[],
    };
    Bytes::copy(alloc, payload)
}

/// Keeps or delivers the message where it is new. `ready` is a copy of it where its signature is right, with memory for its delivery and for its flow.
fn take(
    from: NodeId,
    parts: &mut Parts,
    row: Row,
    object: &ObjectRef<'_>,
    ready: Option<(Kept, Bytes, Seat)>,
    out: &mut Effects,
) -> RelAnswer
    requires place { IsPlace (flows_of row.kind parts.old).flows row.place }
    requires fields { FitsAFormat (as_object object.now).body }
    requires copy { IfSome ready (λ r. r.0 ≡ as_object object.now) }
    requires payload { IfSome ready (λ r. r.1 ≡ payload_of (as_object object.now).body) }
    requires seat { IfSome ready (λ r. IsSeated (flows_of row.kind parts.old) row.place.flow r.2) }
    requires room { 1 ≤ out.old.room }
    ensures answer { result ≡ rel_answer (is_some ready) (is_dated parts.old.lives (as_object object.now).body)
        (came_over parts.old.kflow from (as_object object.now).body) (judge_rel_of (flows_of row.kind parts.old) row.place.flow (as_object object.now).body) }
    ensures parts { parts.new ≡ (rel_handled row.kind result (as_object object.now) parts.old).parts }
    ensures told { out.new ≡ told out.old (rel_handled row.kind result (as_object object.now) parts.old).effects }
    ensures place { IsPlace (flows_of row.kind parts.new).flows row.place }
{
    let judged = judge(parts, row, &object.body);
    if !parts.lives.is_dated(&object.body) {
        return undated(judged);
    }
    if !came_over(parts, from, &object.body) {
        return off_mask(judged);
    }
    let RelJudged::New = judged else {
        return refusal(judged);
    };
    let Some((kept, payload, seat)) = ready else {
        return RelAnswer::BadSig;
    };
    parts.admit_rel(row.kind, kept, payload, row.place, seat, out);
    RelAnswer::New
}

/// The answer to a message that names another boot of an end than the one that is held, whether its signature is right or not.
fn undated(judged: RelJudged) -> RelAnswer
    ensures answer { (right over : Bool) → result ≡ rel_answer right false over judged }
    ensures quiet { (kind : FlowKind) → is_new (rel_item kind result) ≡ false }
{
    match judged {
        RelJudged::BadEnd => RelAnswer::BadEnd,
        RelJudged::Old
        | RelJudged::Ahead
        | RelJudged::Gap
        | RelJudged::Full
        | RelJudged::InboxFull
        | RelJudged::New => RelAnswer::Epoch,
    }
}

/// The answer to one under held boots that came over an edge that isn't in its mask, whether its signature is right or not.
fn off_mask(judged: RelJudged) -> RelAnswer
    ensures answer { (right : Bool) → result ≡ rel_answer right true false judged }
    ensures quiet { (kind : FlowKind) → is_new (rel_item kind result) ≡ false }
{
    match judged {
        RelJudged::BadEnd => RelAnswer::BadEnd,
        RelJudged::Old
        | RelJudged::Ahead
        | RelJudged::Gap
        | RelJudged::Full
        | RelJudged::InboxFull
        | RelJudged::New => RelAnswer::OffMask,
    }
}

/// The answer to one under held boots that isn't new, whether its signature is right or not.
fn refusal(judged: RelJudged) -> RelAnswer
    requires { judged ≢ RelJudged.New }
    ensures answer { (right : Bool) → result ≡ rel_answer right true true judged }
    ensures quiet { (kind : FlowKind) → is_new (rel_item kind result) ≡ false }
{
    match judged {
        RelJudged::BadEnd => RelAnswer::BadEnd,
        RelJudged::Old => RelAnswer::Old,
        RelJudged::Ahead => RelAnswer::Ahead,
        RelJudged::Gap => RelAnswer::Gap,
        RelJudged::Full => RelAnswer::Full,
        RelJudged::InboxFull => RelAnswer::InboxFull,
        RelJudged::New => unreachable!(),
    }
}
