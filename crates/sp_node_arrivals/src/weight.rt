// An update of a weight: whether it may be new, its copy, and its taking.
ghost use Rattle.std.specs.Prelude.{◌≡◌, ◌≤◌, ◌+◌, IfOk, IfSome, is_some, map, option_map};
ghost use Rattle.sp_frame.specs.OfFormat.{IsOf};
ghost use Rattle.sp_frame.specs.Views.{as_list, as_object};
ghost use Rattle.sp_msg.specs.Views.{as_body};
ghost use Rattle.sp_msg.specs.declared.body.Body.TheVariants.{Weight};
ghost use Rattle.sp_rules.specs.Answers.{weight_answer};
ghost use Rattle.sp_rules.specs.Changes.{FitsAFormat};
ghost use Rattle.sp_rules.specs.Handle.{handle_all, offer_to, weight_handled};
ghost use Rattle.sp_rules.specs.Pieces.{WeightPiece};
ghost use Rattle.sp_rules.specs.Told.{told};
ghost use Rattle.sp_node_arrivals.specs.Arrival.{as_arrival};
ghost use Rattle.sp_node_arrivals.specs.Done.{IsDone};
ghost use Rattle.sp_node_arrivals.specs.Signed.{of_some};
ghost use Rattle.sp_node_arrivals.specs.Weight.{IsWeightReady, weight_checks};
ghost use Rattle.sp_node_format.specs.Format.{format_of};

use crate::arrival::Arrival;
use crate::signed::{copy_of, is_right, recall};
use sp_base::{Memory, NodeId};
use sp_frame::ObjectRef;
use sp_msg::{BodyRef, Effect, Effects, Kept, WeightBody};
use sp_node_parts::Parts;
use sp_rules::{Item, MAX_OWN_HEARD, Offer, WeightAnswer};
use sp_sign::Checker;
use std::alloc::Global;

/// Makes the update of a frame ready, where there is one.
pub(crate) fn ready(
    alloc: Global,
    at: &Arrival<'_>,
    parts: &Parts,
    checker: &mut Checker,
    update: &Option<ObjectRef<'_>>,
) -> Result<Option<Kept>, Memory>
    requires keys { checker.old.nodes ≡ at.now.fixed.now.topology.nodes }
    requires format { IfSome update.now (IsOf at.now.fixed.now.topology.format) }
    ensures ready { IfOk result (λ ready. IfSome (option_map as_object update.now)
        (λ o. IsWeightReady at.now.fixed.now parts.now.weights o ready)) }
    ensures keys { checker.new.nodes ≡ checker.old.nodes }
    ensures work { checker.new.checks ≤ checker.old.checks
        + of_some (weight_checks at.now.fixed.now.me parts.now.weights) (option_map as_object update.now) }
    ensures few { checker.new.checks ≤ checker.old.checks + 1 }
{
    let Some(object) = update else {
        return Ok(None);
    };
    let fixed = at.fixed;
    let Offer::New = judge(parts, fixed.me, &object.body) else {
        return Ok(None);
    };
    if !is_right(at, checker, object) {
        return Ok(None);
    }
    Ok(Some(copy_of(alloc, object)?))
}

/// Takes the update of a frame, where there is one, and answers to it.
pub(crate) fn admit(
    at: &Arrival<'_>,
    parts: &mut Parts,
    update: &Option<ObjectRef<'_>>,
    ready: Option<Kept>,
    out: &mut Effects,
) -> Option<Item>
    requires ready { IfSome (option_map as_object update.now)
        (λ o. IsWeightReady at.now.fixed.now parts.old.weights o ready) }
    requires room { 1 ≤ out.old.room }
    ensures done { IsDone
        (handle_all (format_of at.now.fixed.now) (as_arrival at.now) parts.old (map WeightPiece (as_list (option_map as_object update.now))))
        parts.new (as_list result) out.old out.new }
    ensures prio { parts.new.prio ≡ parts.old.prio }
    ensures rel { parts.new.rel ≡ parts.old.rel }
    ensures kflow { parts.new.kflow ≡ parts.old.kflow }
    ensures lives { parts.new.lives ≡ parts.old.lives }
    ensures room { out.old.room ≤ out.new.room + 1 }
{
    let Some(object) = update else {
        return None;
    };
    recall(object);
    let fixed = at.fixed;
    Some(Item::Weight(take(fixed.me, parts, object, ready, out)))
}

/// What the rules of weights say of an update at this node, but for its signature.
fn judge(parts: &Parts, me: NodeId, body: &BodyRef<'_>) -> Offer
    ensures { result ≡ offer_to me parts.now.weights (as_body body.now) }
{
    match body {
        BodyRef::Weight(update) => offer(parts, me, update),
        _ => Offer::Foreign,
    }
}

fn offer(parts: &Parts, me: NodeId, update: &WeightBody) -> Offer
    ensures { result ≡ offer_to me parts.now.weights (Weight update.now) }
{
    if update.origin.0 == me.0 && update.seq > MAX_OWN_HEARD {
        return Offer::Foreign;
    }
    parts.weights.offer(update)
}

/// Holds the update where it is new. `ready` is a copy of it where its signature is right.
fn take(
    me: NodeId,
    parts: &mut Parts,
    object: &ObjectRef<'_>,
    ready: Option<Kept>,
    out: &mut Effects,
) -> WeightAnswer
    requires fields { FitsAFormat (as_object object.now).body }
    requires copy { IfSome ready (λ kept. kept ≡ as_object object.now) }
    requires room { 1 ≤ out.old.room }
    ensures answer { result ≡ weight_answer (is_some ready) (offer_to me parts.old.weights (as_object object.now).body) }
    ensures parts { parts.new ≡ (weight_handled result (as_object object.now) parts.old).parts }
    ensures told { out.new ≡ told out.old (weight_handled result (as_object object.now) parts.old).effects }
{
    let BodyRef::Weight(update) = &object.body else {
        return WeightAnswer::Foreign;
    };
    match offer(parts, me, update) {
        Offer::Foreign => WeightAnswer::Foreign,
        Offer::Low { min } => WeightAnswer::Low { min },
        Offer::Old { held } => WeightAnswer::Old { held },
        Offer::New => {
            let Some(kept) = ready else {
                return WeightAnswer::BadSig;
            };
            out.push(Effect::WeightHeld {
                origin: update.origin,
                edge: update.edge,
                seq: update.seq,
                weight: update.weight,
            });
            parts.weights.hold(kept);
            WeightAnswer::New
        }
    }
}
