// An Epoch object, in which a node says the boot of its life: whether it may be new, its copy, and its taking.
ghost use Rattle.std.specs.Prelude.{◌≡◌, ◌≤◌, ◌+◌, IfOk, IfSome, is_some, length, map, option_map};
ghost use Rattle.sp_frame.specs.OfFormat.{IsOf};
ghost use Rattle.sp_frame.specs.Views.{as_list, as_object};
ghost use Rattle.sp_msg.specs.Views.{as_body};
ghost use Rattle.sp_rules.specs.Answers.{epoch_answer};
ghost use Rattle.sp_rules.specs.Handle.{epoch_handled, handle_all, met_effects};
ghost use Rattle.sp_rules.specs.Lives.{judge_epoch, origin_said};
ghost use Rattle.sp_rules.specs.Pieces.{EpochPiece};
ghost use Rattle.sp_rules.specs.Told.{told};
ghost use Rattle.sp_node_arrivals.specs.Arrival.{as_arrival};
ghost use Rattle.sp_node_arrivals.specs.Done.{IsDone};
ghost use Rattle.sp_node_arrivals.specs.Epoch.{HasEnds, IsEpochReady, ends_room, epoch_checks};
ghost use Rattle.sp_node_arrivals.specs.Signed.{of_some};
ghost use Rattle.sp_node_format.specs.Format.{format_of};

use crate::arrival::Arrival;
use crate::signed::{copy_of, is_right};
use sp_base::{MAX_MESSAGES, Memory, NodeId};
use sp_frame::ObjectRef;
use sp_msg::{BodyRef, Effects, Kept};
use sp_node_parts::Parts;
use sp_rules::{EpochAnswer, EpochJudged, FlowKind, Item};
use sp_sign::Checker;
use std::alloc::Global;

/// Makes the Epoch object of a frame ready, where there is one.
pub(crate) fn ready(
    alloc: Global,
    at: &Arrival<'_>,
    parts: &Parts,
    checker: &mut Checker,
    epoch: &Option<ObjectRef<'_>>,
) -> Result<Option<Kept>, Memory>
    requires keys { checker.old.nodes ≡ at.now.fixed.now.topology.nodes }
    requires format { IfSome epoch.now (IsOf at.now.fixed.now.topology.format) }
    ensures ready { IfOk result (λ ready. IfSome (option_map as_object epoch.now)
        (λ o. IsEpochReady at.now.fixed.now parts.now.lives o ready)) }
    ensures keys { checker.new.nodes ≡ checker.old.nodes }
    ensures work { checker.new.checks ≤ checker.old.checks
        + of_some (epoch_checks at.now.fixed.now.me parts.now.lives) (option_map as_object epoch.now) }
    ensures few { checker.new.checks ≤ checker.old.checks + 1 }
{
    let Some(object) = epoch else {
        return Ok(None);
    };
    let fixed = at.fixed;
    let EpochJudged::New = judge(parts, fixed.me, &object.body) else {
        return Ok(None);
    };
    if !is_right(at, checker, object) {
        return Ok(None);
    }
    Ok(Some(copy_of(alloc, object)?))
}

/// The room for the ends that the Epoch object of a frame may tell: one of each flow that is active before the frame, or becomes so by its slots; no room where
/// it can't be new. None where no number of the machine's is so great.
pub(crate) fn room_for(
    at: &Arrival<'_>,
    parts: &Parts,
    epoch: &Option<ObjectRef<'_>>,
) -> Option<usize>
    ensures { IfSome result (λ room. room ≡ of_some (ends_room at.now.fixed.now.me parts.now) (option_map as_object epoch.now)) }
{
    let Some(object) = epoch else {
        return Some(0);
    };
    let fixed = at.fixed;
    match judge(parts, fixed.me, &object.body) {
        EpochJudged::New => ends(parts, &object.body)?.checked_add(2 * (1 + MAX_MESSAGES)),
        EpochJudged::BadEnd | EpochJudged::Old => Some(0),
    }
}

/// How many flows end where another life of the message's node begins. None where no number of the machine's is so great.
fn ends(parts: &Parts, body: &BodyRef<'_>) -> Option<usize>
    ensures { IfSome result (λ count. count ≡ length (met_effects parts.now (origin_said (as_body body.now)))) }
{
    let origin = origin_of(body);
    let plain = parts.rel.ended_count(origin);
    plain.checked_add(parts.kflow.flows.ended_count(origin))
}

/// The node that says its boot.
fn origin_of(body: &BodyRef<'_>) -> NodeId
    ensures { result ≡ origin_said (as_body body.now) }
{
    match body {
        BodyRef::Epoch(epoch) => epoch.origin,
        _ => NodeId(0),
    }
}

/// Takes the Epoch object of a frame, where there is one, and answers to it.
pub(crate) fn admit(
    at: &Arrival<'_>,
    parts: &mut Parts,
    epoch: &Option<ObjectRef<'_>>,
    ready: Option<Kept>,
    out: &mut Effects,
) -> Option<Item>
    requires ready { IfSome (option_map as_object epoch.now)
        (λ o. IsEpochReady at.now.fixed.now parts.old.lives o ready) }
    requires room { IfSome (option_map as_object epoch.now)
        (λ o. HasEnds at.now.fixed.now.me parts.old out.old.room o) }
    ensures { IsDone
        (handle_all (format_of at.now.fixed.now) (as_arrival at.now) parts.old (map EpochPiece (as_list (option_map as_object epoch.now))))
        parts.new (as_list result) out.old out.new }
{
    let Some(object) = epoch else {
        return None;
    };
    let fixed = at.fixed;
    Some(Item::Epoch(take(fixed.me, parts, object, ready, out)))
}

/// What the rules of lives say of an object at this node, but for its signature.
fn judge(parts: &Parts, me: NodeId, body: &BodyRef<'_>) -> EpochJudged
    ensures { result ≡ judge_epoch me parts.now.lives (as_body body.now) }
{
    match body {
        BodyRef::Epoch(epoch) => parts.lives.judge(me, epoch),
        _ => EpochJudged::BadEnd,
    }
}

/// Begins another life of the object's node where it is new. `ready` is a copy of it where its signature is right.
fn take(
    me: NodeId,
    parts: &mut Parts,
    object: &ObjectRef<'_>,
    ready: Option<Kept>,
    out: &mut Effects,
) -> EpochAnswer
    requires copy { IfSome ready (λ kept. kept ≡ as_object object.now) }
    requires room { HasEnds me parts.old out.old.room (as_object object.now) }
    ensures answer { result ≡ epoch_answer (is_some ready) (judge_epoch me parts.old.lives (as_object object.now).body) }
    ensures parts { parts.new ≡ (epoch_handled result (as_object object.now) parts.old).parts }
    ensures told { out.new ≡ told out.old (epoch_handled result (as_object object.now) parts.old).effects }
{
    match judge(parts, me, &object.body) {
        EpochJudged::BadEnd => EpochAnswer::BadEnd,
        EpochJudged::Old => EpochAnswer::Old,
        EpochJudged::New => {
            let Some(kept) = ready else {
                return EpochAnswer::BadSig;
            };
            let origin = origin_of(&object.body);
            parts.rel.restart(FlowKind::Plain, origin, out);
            parts.kflow.flows.restart(FlowKind::Paths, origin, out);
            parts.prio.renew(origin);
            parts.lives.hold(kept);
            EpochAnswer::New
        }
    }
}
