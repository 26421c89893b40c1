// Priority messages, and the acknowledged link number before them: whether each may be new, its parcel, and its taking.
ghost use Rattle.std.specs.Prelude.{◌≡◌, ◌≤◌, ◌<◌, ◌+◌, ◌-◌, ◌*◌, ◌^◌};
ghost use Rattle.std.specs.Prelude.{[], ◌∷◌, ◌⊎◌, All, Bool, false, IfOk, IfSome, Some, drop, is_some, length, map};
ghost use Rattle.sp_base.specs.declared.limits.TheConstants.{MAX_MESSAGES};
ghost use Rattle.sp_frame.specs.OfFormat.{IsOf};
ghost use Rattle.sp_frame.specs.Views.{as_numbered, as_object};
ghost use Rattle.sp_rules.specs.Answers.{prio_answer};
ghost use Rattle.sp_rules.specs.Changes.{FitsAFormat};
ghost use Rattle.sp_rules.specs.Handle.{handle_all, prio_handled};
ghost use Rattle.sp_rules.specs.Lives.{is_dated};
ghost use Rattle.sp_rules.specs.Pieces.{PrioPiece, prio_piece};
ghost use Rattle.sp_rules.specs.Prio.{acked, acked_effects, judge_prio, places};
ghost use Rattle.sp_rules.specs.Told.{told};
ghost use Rattle.sp_node_arrivals.specs.Arrival.{as_arrival};
ghost use Rattle.sp_node_arrivals.specs.Done.{IsDone};
ghost use Rattle.sp_node_arrivals.specs.Prio.{ArePriosReady, HasIds, HasRoom, IsPrioReady, prio_checks, prio_room, prios_checks};
ghost use Rattle.sp_node_format.specs.Format.{format_of};

use crate::arrival::Arrival;
use crate::signed::{copy_of, is_right, recall};
use sp_base::{Four, Memory, NodeId};
use sp_frame::ObjectRef;
use sp_msg::Effects;
use sp_node_parts::Parts;
use sp_prio::{Parcel, PrioJudged};
use sp_rules::{Item, PrioAnswer};
use sp_sign::Checker;
use std::alloc::Global;

/// Makes the messages from this place on ready.
pub(crate) fn ready_from(
    alloc: Global,
    at: &Arrival<'_>,
    parts: &Parts,
    checker: &mut Checker,
    prios: &Four<(u64, ObjectRef<'_>)>,
    place: usize,
) -> Result<Four<Option<Parcel>>, Memory>
    requires formats { All (λ p. IsOf at.now.fixed.now.topology.format p.1) prios.now }
    requires keys { checker.old.nodes ≡ at.now.fixed.now.topology.nodes }
    ensures ready { IfOk result (ArePriosReady (as_arrival at.now) parts.now.lives parts.now.prio (map as_numbered (drop place prios.now))) }
    ensures many { IfOk result (λ ready. length ready ≡ length prios.now - place) }
    ensures keys { checker.new.nodes ≡ checker.old.nodes }
    ensures work { checker.new.checks ≤ checker.old.checks
        + prios_checks (as_arrival at.now) parts.now.lives parts.now.prio (map as_numbered (drop place prios.now)) }
    ensures few { checker.new.checks ≤ checker.old.checks + (MAX_MESSAGES - place) }
{
    let Some((_, object)) = prios.get(place) else {
        return Ok(Four::new());
    };
    let first = ready_one(alloc, at, parts, checker, object)?;
    let others = ready_from(alloc, at, parts, checker, prios, place + 1)?;
    Ok(others.led_by(first))
}

fn ready_one(
    alloc: Global,
    at: &Arrival<'_>,
    parts: &Parts,
    checker: &mut Checker,
    object: &ObjectRef<'_>,
) -> Result<Option<Parcel>, Memory>
    requires format { IsOf at.now.fixed.now.topology.format object.now }
    requires keys { checker.old.nodes ≡ at.now.fixed.now.topology.nodes }
    ensures ready { IfOk result (IsPrioReady (as_arrival at.now) parts.now.lives parts.now.prio (as_object object.now)) }
    ensures keys { checker.new.nodes ≡ checker.old.nodes }
    ensures work { checker.new.checks ≤ checker.old.checks + prio_checks (as_arrival at.now) parts.now.lives parts.now.prio (as_object object.now) }
    ensures few { checker.new.checks ≤ checker.old.checks + 1 }
{
    if !parts.lives.is_dated(&object.body) {
        return Ok(None);
    }
    let PrioJudged::New = parts.prio.judge_ref(&object.body, at.time) else {
        return Ok(None);
    };
    if !is_right(at, checker, object) {
        return Ok(None);
    }
    let kept = copy_of(alloc, object)?;
    Ok(Some(parts.prio.parcel_of(alloc, kept, Some(at.from))?))
}

/// Lets go what was made ready, one after another.
pub(crate) fn leave(ready: Four<Option<Parcel>>) {
    if let Some((_, others)) = ready.split() {
        leave(others);
    }
}

/// The neighbour heard the priority messages of this node up to this link number.
pub(crate) fn acknowledge(parts: &mut Parts, from: NodeId, number: u64, out: &mut Effects)
    requires room { MAX_MESSAGES ≤ out.old.room }
    ensures parts { parts.new ≡ record parts.old { prio = acked parts.old.prio from.0 number } }
    ensures told { out.new ≡ told out.old (acked_effects parts.old.prio from.0 number) }
    ensures room { out.old.room ≤ out.new.room + MAX_MESSAGES }
{
    parts.prio.acked(from, number, out);
}

/// Takes the messages from this place on, and answers to each.
pub(crate) fn admit_from(
    at: &Arrival<'_>,
    parts: &mut Parts,
    prios: &Four<(u64, ObjectRef<'_>)>,
    place: usize,
    ready: Four<Option<Parcel>>,
    out: &mut Effects,
) -> Four<Item>
    requires ready { ArePriosReady (as_arrival at.now) parts.old.lives parts.old.prio (map as_numbered (drop place prios.now)) ready }
    requires room { HasRoom (MAX_MESSAGES - place) parts.old.prio out.old.room }
    ensures done { IsDone
        (handle_all (format_of at.now.fixed.now) (as_arrival at.now) parts.old (map prio_piece (map as_numbered (drop place prios.now))))
        parts.new result out.old out.new }
    ensures many { length result ≡ length prios.now - place }
    ensures rel { parts.new.rel ≡ parts.old.rel }
    ensures kflow { parts.new.kflow ≡ parts.old.kflow }
    ensures lives { parts.new.lives ≡ parts.old.lives }
    ensures room { out.old.room ≤ out.new.room + (MAX_MESSAGES - place) * prio_room parts.old.prio }
{
    let Some((first, others)) = ready.split() else {
        return Four::new();
    };
    let Some((number, object)) = prios.get(place) else {
        unreachable!()
    };
    let item = admit_one(at, parts, *number, object, first, out);
    let items = admit_from(at, parts, prios, place + 1, others, out);
    items.led_by(item)
}

fn admit_one(
    at: &Arrival<'_>,
    parts: &mut Parts,
    number: u64,
    object: &ObjectRef<'_>,
    ready: Option<Parcel>,
    out: &mut Effects,
) -> Item
    requires ready { IsPrioReady (as_arrival at.now) parts.old.lives parts.old.prio (as_object object.now) ready }
    requires ids { HasIds 1 parts.old.prio }
    requires room { prio_room parts.old.prio ≤ out.old.room }
    ensures done { IsDone
        (handle_all (format_of at.now.fixed.now) (as_arrival at.now) parts.old (PrioPiece number (as_object object.now) ∷ []))
        parts.new (result ∷ []) out.old out.new }
    ensures rel { parts.new.rel ≡ parts.old.rel }
    ensures kflow { parts.new.kflow ≡ parts.old.kflow }
    ensures lives { parts.new.lives ≡ parts.old.lives }
    ensures room { out.old.room ≤ out.new.room + prio_room parts.old.prio }
{
    recall(object);
    Item::Prio(take(at, parts, number, object, ready, out))
}

/// Keeps a message under its link number where it is new. `ready` is a parcel of it where its signature is right.
fn take(
    at: &Arrival<'_>,
    parts: &mut Parts,
    number: u64,
    object: &ObjectRef<'_>,
    ready: Option<Parcel>,
    out: &mut Effects,
) -> PrioAnswer
    requires fields { FitsAFormat (as_object object.now).body }
    requires parcel { IfSome ready (λ parcel. parcel ≡ record {
      kept = as_object object.now;
      came = Some at.now.from;
      copies = places parts.old.prio (as_object object.now).body (Some at.now.from);
    }) }
    requires inbox { parts.old.prio.inbox.last < 2 ^ 63 }
    requires stores { All (λ q. q.store.last < 2 ^ 63) parts.old.prio.peers }
    requires room { 2 * length parts.old.prio.peers + 3 ≤ out.old.room }
    ensures answer { result ≡ prio_answer (is_some ready) (is_dated parts.old.lives (as_object object.now).body)
        (judge_prio parts.old.prio (as_object object.now).body at.now.time) }
    ensures parts { parts.new ≡ (prio_handled at.now.from result number (as_object object.now) parts.old).parts }
    ensures told { out.new ≡ told out.old (prio_handled at.now.from result number (as_object object.now) parts.old).effects }
{
    let judged = parts.prio.judge_ref(&object.body, at.time);
    if !parts.lives.is_dated(&object.body) {
        return undated(judged);
    }
    match judged {
        PrioJudged::BadEnd => PrioAnswer::BadEnd,
        PrioJudged::Expired => PrioAnswer::Expired,
        PrioJudged::Seen => {
            parts.prio.heard(at.from, number);
            PrioAnswer::Seen
        }
        PrioJudged::New => {
            let Some(parcel) = ready else {
                return PrioAnswer::BadSig;
            };
            parts.prio.admit(parcel, out);
            parts.prio.heard(at.from, number);
            PrioAnswer::New
        }
    }
}

/// The answer to a message that names another boot than the one that is held, whether its signature is right or not.
fn undated(judged: PrioJudged) -> PrioAnswer
    ensures answer { (right : Bool) → result ≡ prio_answer right false judged }
    ensures refused { (result ≡ PrioAnswer.BadEnd) ⊎ (result ≡ PrioAnswer.Epoch) }
{
    match judged {
        PrioJudged::BadEnd => PrioAnswer::BadEnd,
        PrioJudged::Expired | PrioJudged::Seen | PrioJudged::New => PrioAnswer::Epoch,
    }
}
