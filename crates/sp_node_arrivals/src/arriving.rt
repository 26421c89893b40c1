// A fresh frame arrives: all memory and all signatures first, then its objects one after another, kind after kind.
ghost use Rattle.std.specs.Prelude.{◌≡◌, ◌≤◌, ◌<◌, ◌+◌, ◌-◌, [], ◌++◌, IfOk, IfSome, OnErr, drop, length, vec_capacity};
ghost use Rattle.sp_base.specs.declared.limits.TheConstants.{MAX_MESSAGES};
ghost use Rattle.sp_frame.specs.OfFormat.{AreOf};
ghost use Rattle.sp_frame.specs.Views.{as_contents, as_list};
ghost use Rattle.sp_frame.specs.declared.sections.TheConstants.{MOST_OBJECTS};
ghost use Rattle.sp_rules.specs.Arrivals.{greeted};
ghost use Rattle.sp_rules.specs.Handle.{handle_all};
ghost use Rattle.sp_rules.specs.Pieces.{pieces_of};
ghost use Rattle.sp_node_arrivals.specs.Admitted.{IsAdmitted};
ghost use Rattle.sp_node_arrivals.specs.Arrival.{as_arrival};
ghost use Rattle.sp_node_arrivals.specs.Done.{IsDone, items_of};
ghost use Rattle.sp_node_arrivals.specs.Prio.{HasIds};
ghost use Rattle.sp_node_arrivals.specs.Ready.{IsReady};
ghost use Rattle.sp_node_arrivals.specs.Rel.{ground_of};
ghost use Rattle.sp_node_arrivals.specs.Signed.{of_some};
ghost use Rattle.sp_node_arrivals.specs.Slot.{IsSlotReady, slot_checks};
ghost use Rattle.sp_node_arrivals.specs.Rooms.{frame_room, messages_room};
ghost use Rattle.sp_node_arrivals.specs.Work.{frame_checks, section_checks};
ghost use Rattle.sp_node_arrivals.specs.declared.arriving.TheConstants.{MOST_ANSWERS};
ghost use Rattle.sp_node_format.specs.Format.{format_of};

use crate::arrival::Arrival;
use crate::greeting::greet;
use crate::slot::{SlotAnswers, SlotReady};
use crate::{epoch, prio, slot, weight};
use sp_base::{Four, Listed, MAX_MESSAGES, Memory, push_in_room};
use sp_frame::Sections;
use sp_msg::{Effects, Kept};
use sp_node_parts::Parts;
use sp_prio::Parcel;
use sp_rules::{FlowKind, Item};
use sp_sign::Checker;
use std::alloc::Global;

/// The answers to the objects of a frame in the order of handling, and what they caused, in order.
#[derive(Debug, Drop)]
pub struct Arrived {
    pub items: Listed<Item>,
    pub effects: Effects,
}

/// Takes the objects of a fresh frame from a neighbour, which are of the topology's format, in the order of the rules: the update of a weight, the
/// acknowledged link number, the priority messages, the two slots, each with its report, its acknowledgement and its messages, and the Epoch object.
/// Before all of them, where another life of the neighbour began, what it reported in its life before is forgotten.
///
/// All memory is taken before anything changes, so it is refused for want of memory alone, and then nothing has changed. A signature is checked
/// once for each object that may be new when its turn comes, and for no other: for none that names other boots than those that are held, or came over
/// an edge that its mask lacks.
pub fn arrive(
    alloc: Global,
    at: &Arrival<'_>,
    parts: &mut Parts,
    checker: &mut Checker,
    sections: &Sections<'_>,
) -> Result<Arrived, Memory>
    requires formats { AreOf at.now.fixed.now.topology.format sections.now }
    requires keys { checker.old.nodes ≡ at.now.fixed.now.topology.nodes }
    requires ids { HasIds MAX_MESSAGES parts.old.prio }
    ensures taken { IfOk result (λ a. IsAdmitted
        (handle_all (format_of at.now.fixed.now) (as_arrival at.now) (greeted at.now.fixed.now.epochs at.now.risen at.now.from parts.old)
        (pieces_of (as_contents sections.now))) parts.new a.items a.effects.list) }
    ensures as_before { OnErr result (parts.new ≡ parts.old) }
    ensures keys { checker.new.nodes ≡ checker.old.nodes }
    ensures work { checker.new.checks ≤ checker.old.checks
        + frame_checks (as_arrival at.now) parts.old (pieces_of (as_contents sections.now)) }
    ensures few { checker.new.checks ≤ checker.old.checks + MOST_OBJECTS }
{
    let room = room_for(alloc, at, parts, sections)?;
    let ready = make_ready(alloc, at, parts, checker, sections)?;
    greet(at, parts);
    Ok(taken(at, parts, sections, ready, room))
}

// ---- what is made ready before anything changes

/// What is ready of the objects of a frame.
#[derive(Drop)]
pub(crate) struct Ready {
    pub weight: Option<Kept>,
    pub prios: Four<Option<Parcel>>,
    pub slot: SlotReady,
    pub paths: SlotReady,
    pub epoch: Option<Kept>,
}

/// Makes the objects of a frame ready, kind after kind. It is refused for want of memory alone. A signature is checked once for each object that
/// may be new when its turn comes, and for no other.
fn make_ready(
    alloc: Global,
    at: &Arrival<'_>,
    parts: &Parts,
    checker: &mut Checker,
    sections: &Sections<'_>,
) -> Result<Ready, Memory>
    requires formats { AreOf at.now.fixed.now.topology.format sections.now }
    requires keys { checker.old.nodes ≡ at.now.fixed.now.topology.nodes }
    ensures ready { IfOk result (IsReady (as_arrival at.now) parts.now sections.now) }
    ensures keys { checker.new.nodes ≡ checker.old.nodes }
    ensures work { checker.new.checks ≤ checker.old.checks + section_checks (as_arrival at.now) parts.now sections.now }
    ensures few { checker.new.checks ≤ checker.old.checks + MOST_OBJECTS }
{
    let weight = weight::ready(alloc, at, parts, checker, &sections.weight)?;
    let epoch = epoch::ready(alloc, at, parts, checker, &sections.epoch)?;
    let prios = prio::ready_from(alloc, at, parts, checker, &sections.prios, 0)?;
    match slots(alloc, at, parts, checker, sections) {
        Ok((slot, paths)) => Ok(Ready {
            weight,
            prios,
            slot,
            paths,
            epoch,
        }),
        Err(memory) => {
            prio::leave(prios);
            Err(memory)
        }
    }
}

/// Makes the objects of both slots ready.
fn slots(
    alloc: Global,
    at: &Arrival<'_>,
    parts: &Parts,
    checker: &mut Checker,
    sections: &Sections<'_>,
) -> Result<(SlotReady, SlotReady), Memory>
    requires formats { AreOf at.now.fixed.now.topology.format sections.now }
    requires keys { checker.old.nodes ≡ at.now.fixed.now.topology.nodes }
    ensures slot { IfOk result (λ ready. IfSome sections.now.slot (λ s.
        IsSlotReady (ground_of (as_arrival at.now) parts.now) parts.now.rel s ready.0)) }
    ensures paths { IfOk result (λ ready. IfSome sections.now.paths (λ s.
        IsSlotReady (ground_of (as_arrival at.now) parts.now) parts.now.kflow.flows s ready.1)) }
    ensures keys { checker.new.nodes ≡ checker.old.nodes }
    ensures work { checker.new.checks ≤ checker.old.checks
        + of_some (slot_checks (ground_of (as_arrival at.now) parts.now) parts.now.rel) sections.now.slot
        + of_some (slot_checks (ground_of (as_arrival at.now) parts.now) parts.now.kflow.flows) sections.now.paths }
    ensures few { checker.new.checks ≤ checker.old.checks + ((1 + MAX_MESSAGES) + (1 + 1)) }
{
    let slot = slot::ready(alloc, at, parts, checker, FlowKind::Plain, &sections.slot)?;
    match slot::ready(alloc, at, parts, checker, FlowKind::Paths, &sections.paths) {
        Ok(paths) => Ok((slot, paths)),
        Err(memory) => {
            slot::leave(slot);
            Err(memory)
        }
    }
}

/// The memory for what a frame gives.
#[derive(Drop)]
struct Room {
    effects: Effects,
    items: Vec<Item>,
}

/// No effects and no answers yet, with room for all that a frame can give.
fn room_for(
    alloc: Global,
    at: &Arrival<'_>,
    parts: &Parts,
    sections: &Sections<'_>,
) -> Result<Room, Memory>
    ensures effects { IfOk result (λ room. room.effects ≡ record { list = []; room = frame_room (as_arrival at.now) parts.now sections.now }) }
    ensures empty { IfOk result (λ room. room.items.items ≡ []) }
    ensures items { IfOk result (λ room. MOST_ANSWERS ≤ vec_capacity room.items) }
{
    let Some(ends) = epoch::room_for(at, parts, &sections.epoch) else {
        return Err(Memory);
    };
    let effects = with_room(alloc, parts, ends)?;
    let items = Vec::with_capacity(alloc, MOST_ANSWERS)?;
    Ok(Room { effects, items })
}

/// No effects yet, with room for all that the messages of a frame can cause, and for so many ends of flows.
fn with_room(alloc: Global, parts: &Parts, ends: usize) -> Result<Effects, Memory>
    ensures { IfOk result (λ effects. effects ≡ record { list = []; room = messages_room parts.now.prio + ends }) }
{
    let of_a_message = 2 * parts.prio.neighbours() + 3;
    let of_messages = 1 + MAX_MESSAGES + MAX_MESSAGES * of_a_message + 2 * MAX_MESSAGES;
    let Some(room) = of_messages.checked_add(ends) else {
        return Err(Memory);
    };
    match Effects::with_room(alloc, room) {
        Ok(effects) => Ok(effects),
        Err(_) => Err(Memory),
    }
}

// ---- what is taken. No call here can fail

/// How many answers `Answers` can hold.
const MOST_ANSWERS: usize = 1 + MAX_MESSAGES + 2 * (1 + MAX_MESSAGES) + 1;

/// The answers to the objects of a frame.
#[derive(Debug, Drop)]
pub(crate) struct Answers {
    pub weight: Option<Item>,
    pub prios: Four<Item>,
    pub slot: SlotAnswers,
    pub paths: SlotAnswers,
    pub epoch: Option<Item>,
}

/// Takes the objects that were made ready, in the order of the rules. It takes no memory.
fn taken(
    at: &Arrival<'_>,
    parts: &mut Parts,
    sections: &Sections<'_>,
    ready: Ready,
    room: Room,
) -> Arrived
    requires ready { IsReady (as_arrival at.now) parts.old sections.now ready }
    requires ids { HasIds MAX_MESSAGES parts.old.prio }
    requires effects { room.effects ≡ record { list = []; room = frame_room (as_arrival at.now) parts.old sections.now } }
    requires empty { room.items.items ≡ [] }
    requires items { MOST_ANSWERS ≤ vec_capacity room.items }
    ensures { IsAdmitted
        (handle_all (format_of at.now.fixed.now) (as_arrival at.now) parts.old (pieces_of (as_contents sections.now)))
        parts.new result.items result.effects.list }
{
    let Room { mut effects, items } = room;
    let answers = admit(at, parts, sections, ready, &mut effects);
    Arrived {
        items: listed(items, answers),
        effects,
    }
}

/// Takes the objects of a frame, kind after kind.
fn admit(
    at: &Arrival<'_>,
    parts: &mut Parts,
    sections: &Sections<'_>,
    ready: Ready,
    out: &mut Effects,
) -> Answers
    requires ready { IsReady (as_arrival at.now) parts.old sections.now ready }
    requires ids { HasIds MAX_MESSAGES parts.old.prio }
    requires room { frame_room (as_arrival at.now) parts.old sections.now ≤ out.old.room }
    ensures { IsDone
        (handle_all (format_of at.now.fixed.now) (as_arrival at.now) parts.old (pieces_of (as_contents sections.now)))
        parts.new (items_of result) out.old out.new }
{
    let Ready {
        weight,
        prios,
        slot,
        paths,
        epoch,
    } = ready;
    let weight = weight::admit(at, parts, &sections.weight, weight, out);
    prio::acknowledge(parts, at.from, sections.prio_ack, out);
    let prios = prio::admit_from(at, parts, &sections.prios, 0, prios, out);
    let slot = slot::admit(at, parts, FlowKind::Plain, &sections.slot, slot, out);
    let paths = slot::admit(at, parts, FlowKind::Paths, &sections.paths, paths, out);
    let epoch = epoch::admit(at, parts, &sections.epoch, epoch, out);
    Answers {
        weight,
        prios,
        slot,
        paths,
        epoch,
    }
}

/// The answers in their order, in a vector that has the room for all of them.
fn listed(mut items: Vec<Item>, answers: Answers) -> Listed<Item>
    requires empty { items.items ≡ [] }
    requires room { MOST_ANSWERS ≤ vec_capacity items }
    ensures { result ≡ items_of answers }
{
    let Answers {
        weight,
        prios,
        slot,
        paths,
        epoch,
    } = answers;
    list_one(&mut items, weight);
    list_from(&mut items, &prios, 0);
    list_one(&mut items, slot.ack);
    list_from(&mut items, &slot.rels, 0);
    list_one(&mut items, paths.ack);
    list_from(&mut items, &paths.rels, 0);
    list_one(&mut items, epoch);
    Listed::from_vec(items)
}

/// Appends an answer, where there is one. It takes no memory.
fn list_one(items: &mut Vec<Item>, answer: Option<Item>)
    requires { length items.old.items < vec_capacity items.old }
    ensures items { items.new.items ≡ items.old.items ++ as_list answer }
    ensures len { length items.new.items ≤ length items.old.items + 1 }
    ensures capacity { vec_capacity items.old ≤ vec_capacity items.new }
{
    if let Some(answer) = answer {
        push_in_room(items, answer);
    }
}

/// Appends the answers from this place on. It takes no memory.
fn list_from(items: &mut Vec<Item>, answers: &Four<Item>, place: usize)
    requires { length items.old.items + (MAX_MESSAGES - place) ≤ vec_capacity items.old }
    ensures items { items.new.items ≡ items.old.items ++ drop place answers.now }
    ensures len { length items.new.items ≤ length items.old.items + (MAX_MESSAGES - place) }
    ensures capacity { vec_capacity items.old ≤ vec_capacity items.new }
{
    if let Some(answer) = answers.get(place) {
        push_in_room(items, *answer);
        list_from(items, answers, place + 1);
    }
}
