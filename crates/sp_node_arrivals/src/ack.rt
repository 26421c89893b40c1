// The acknowledgement of a slot: whether it may be new, its copy with the memory of its flow, and its taking.
ghost use Rattle.std.specs.Prelude.{◌≡◌, ◌≢◌, ◌≤◌, ◌+◌, [], ◌∷◌, Bool, false, true, IfOk, IfSome, is_some, map, option_map};
ghost use Rattle.sp_frame.specs.OfFormat.{IsOf};
ghost use Rattle.sp_frame.specs.Views.{as_list, as_object};
ghost use Rattle.sp_msg.specs.Caused.{Caused};
ghost use Rattle.sp_msg.specs.Views.{as_body};
ghost use Rattle.sp_rel.specs.Places.{IsPlace};
ghost use Rattle.sp_rel.specs.Seated.{IsSeated};
ghost use Rattle.sp_rules.specs.Answers.{ack_answer, is_new};
ghost use Rattle.sp_rules.specs.Changes.{FitsAFormat};
ghost use Rattle.sp_rules.specs.Handle.{ack_handled, ack_item, handle_all};
ghost use Rattle.sp_rules.specs.declared.kflow.FlowKind.{FlowKind};
ghost use Rattle.sp_rules.specs.Lives.{is_dated};
ghost use Rattle.sp_rules.specs.Pieces.{AckPiece};
ghost use Rattle.sp_rules.specs.Rel.{judge_ack_of};
ghost use Rattle.sp_node_arrivals.specs.Ack.{IsAckReady, ack_checks, is_acked};
ghost use Rattle.sp_node_arrivals.specs.Arrival.{as_arrival};
ghost use Rattle.sp_node_arrivals.specs.Done.{IsDone};
ghost use Rattle.sp_node_arrivals.specs.Rel.{StaysReady, ground_of};
ghost use Rattle.sp_rules.specs.Parts.{flows_of};
ghost use Rattle.sp_node_format.specs.Format.{format_of};

use crate::arrival::Arrival;
use crate::row::{Row, ack_item};
use crate::signed::{copy_of, is_right, recall};
use sp_base::Memory;
use sp_frame::ObjectRef;
use sp_msg::{Ack, BodyRef, Kept};
use sp_node_parts::Parts;
use sp_rel::{AckJudged, Seat};
use sp_rules::{AckAnswer, Item};
use sp_sign::Checker;
use std::alloc::Global;

/// Makes an acknowledgement ready.
pub(crate) fn ready(
    alloc: Global,
    at: &Arrival<'_>,
    parts: &Parts,
    checker: &mut Checker,
    row: Row,
    object: &ObjectRef<'_>,
) -> Result<Option<(Kept, Seat)>, Memory>
    requires format { IsOf at.now.fixed.now.topology.format object.now }
    requires keys { checker.old.nodes ≡ at.now.fixed.now.topology.nodes }
    requires place { IsPlace (flows_of row.kind parts.now).flows row.place }
    ensures ready { IfOk result (IsAckReady at.now.fixed.now parts.now.lives (flows_of row.kind parts.now) row.place.flow (as_object object.now)) }
    ensures keys { checker.new.nodes ≡ checker.old.nodes }
    ensures work { checker.new.checks ≤ checker.old.checks
        + ack_checks parts.now.lives (flows_of row.kind parts.now) row.place.flow (as_object object.now) }
    ensures new { IfOk result (λ ready. is_some ready
        ≡ is_acked at.now.fixed.now parts.now.lives (flows_of row.kind parts.now) row.place.flow (as_object object.now)) }
    ensures few { checker.new.checks ≤ checker.old.checks + 1 }
{
    if !parts.lives.is_dated(&object.body) {
        return Ok(None);
    }
    let AckJudged::New = judge(parts, row, &object.body) else {
        return Ok(None);
    };
    if !is_right(at, checker, object) {
        return Ok(None);
    }
    let kept = copy_of(alloc, object)?;
    let Ok(seat) = parts.flows(row.kind).seat(alloc, row.place) else {
        return Err(Memory);
    };
    Ok(Some((kept, seat)))
}

/// Takes the acknowledgement of a slot, where there is one, and answers to it.
pub(crate) fn admit(
    at: &Arrival<'_>,
    parts: &mut Parts,
    row: Row,
    ack: &Option<ObjectRef<'_>>,
    ready: Option<(Kept, Seat)>,
) -> Option<Item>
    requires place { IsPlace (flows_of row.kind parts.old).flows row.place }
    requires ready { IfSome (option_map as_object ack.now)
        (λ o. IsAckReady at.now.fixed.now parts.old.lives (flows_of row.kind parts.old) row.place.flow o ready) }
    ensures done { (c : Caused) → IsDone
        (handle_all (format_of at.now.fixed.now) (as_arrival at.now) parts.old
        (map (AckPiece row.kind row.place.flow) (as_list (option_map as_object ack.now)))) parts.new (as_list result) c c }
    ensures ground { ground_of (as_arrival at.now) parts.new ≡ ground_of (as_arrival at.now) parts.old }
    ensures stays { StaysReady (is_some ready) (ground_of (as_arrival at.now) parts.old) row.place.flow
        (flows_of row.kind parts.old) (flows_of row.kind parts.new) }
    ensures place { IsPlace (flows_of row.kind parts.new).flows row.place }
{
    match ack {
        Some(object) => Some(admit_one(at, parts, row, object, ready)),
        None => None,
    }
}

fn admit_one(
    at: &Arrival<'_>,
    parts: &mut Parts,
    row: Row,
    object: &ObjectRef<'_>,
    ready: Option<(Kept, Seat)>,
) -> Item
    requires place { IsPlace (flows_of row.kind parts.old).flows row.place }
    requires ready { IsAckReady at.now.fixed.now parts.old.lives (flows_of row.kind parts.old) row.place.flow (as_object object.now) ready }
    ensures done { (c : Caused) → IsDone
        (handle_all (format_of at.now.fixed.now) (as_arrival at.now) parts.old (AckPiece row.kind row.place.flow (as_object object.now) ∷ []))
        parts.new (result ∷ []) c c }
    ensures ground { ground_of (as_arrival at.now) parts.new ≡ ground_of (as_arrival at.now) parts.old }
    ensures stays { StaysReady (is_some ready) (ground_of (as_arrival at.now) parts.old) row.place.flow
        (flows_of row.kind parts.old) (flows_of row.kind parts.new) }
    ensures place { IsPlace (flows_of row.kind parts.new).flows row.place }
{
    recall(object);
    let answer = take(parts, row, object, ready);
    ack_item(row.kind, answer)
}

/// What is said of the acknowledgement of a slot, but for its signature.
fn judge(parts: &Parts, row: Row, body: &BodyRef<'_>) -> AckJudged
    requires place { IsPlace (flows_of row.kind parts.now).flows row.place }
    ensures { result ≡ judge_ack_of (flows_of row.kind parts.now) row.place.flow (as_body body.now) }
{
    match body {
        BodyRef::Ack(ack) => parts.flows(row.kind).judge_ack(row.place, ack),
        BodyRef::Kack(kack) => {
            let ack = Ack {
                src: kack.src,
                dst: kack.dst,
                sboot: 0,
                dboot: 0,
                seq: kack.seq,
            };
            parts.flows(row.kind).judge_ack(row.place, &ack)
        }
        _ => AckJudged::BadEnd,
    }
}

/// Keeps the acknowledgement where it is new. `ready` is a copy of it where its signature is right, with memory for its flow.
fn take(
    parts: &mut Parts,
    row: Row,
    object: &ObjectRef<'_>,
    ready: Option<(Kept, Seat)>,
) -> AckAnswer
    requires place { IsPlace (flows_of row.kind parts.old).flows row.place }
    requires fields { FitsAFormat (as_object object.now).body }
    requires copy { IfSome ready (λ r. r.0 ≡ as_object object.now) }
    requires seat { IfSome ready (λ r. IsSeated (flows_of row.kind parts.old) row.place.flow r.1) }
    ensures answer { result ≡ ack_answer (is_some ready) (is_dated parts.old.lives (as_object object.now).body)
        (judge_ack_of (flows_of row.kind parts.old) row.place.flow (as_object object.now).body) }
    ensures parts { parts.new ≡ (ack_handled row.kind result (as_object object.now) parts.old).parts }
    ensures place { IsPlace (flows_of row.kind parts.new).flows row.place }
{
    let judged = judge(parts, row, &object.body);
    if !parts.lives.is_dated(&object.body) {
        return undated(judged);
    }
    let AckJudged::New = judged else {
        return refusal(judged);
    };
    let Some((kept, seat)) = ready else {
        return AckAnswer::BadSig;
    };
    parts.admit_ack(row.kind, kept, row.place, seat);
    AckAnswer::New
}

/// The answer to an acknowledgement that names another boot of an end than the one that is held, whether its signature is right or not.
fn undated(judged: AckJudged) -> AckAnswer
    ensures answer { (right : Bool) → result ≡ ack_answer right false judged }
    ensures quiet { (kind : FlowKind) → is_new (ack_item kind result) ≡ false }
{
    match judged {
        AckJudged::BadEnd => AckAnswer::BadEnd,
        AckJudged::Old | AckJudged::Ahead | AckJudged::New => AckAnswer::Epoch,
    }
}

/// The answer to one under held boots that isn't new, whether its signature is right or not.
fn refusal(judged: AckJudged) -> AckAnswer
    requires { judged ≢ AckJudged.New }
    ensures answer { (right : Bool) → result ≡ ack_answer right true judged }
    ensures quiet { (kind : FlowKind) → is_new (ack_item kind result) ≡ false }
{
    match judged {
        AckJudged::BadEnd => AckAnswer::BadEnd,
        AckJudged::Old => AckAnswer::Old,
        AckJudged::Ahead => AckAnswer::Ahead,
        AckJudged::New => unreachable!(),
    }
}
