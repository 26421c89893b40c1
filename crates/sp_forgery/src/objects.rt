// The objects of a frame that was handled, with their answers: which of them is the first that is forged.
ghost use Rattle.std.specs.Prelude.{◌≡◌, ◌∷◌, ◌++◌, ◌-◌, All, IfSome, List, Ok, Some, None, drop, length, map, option_map, if◌then◌else◌};
ghost use Rattle.laws_node.specs.Objects.{objects_in};
ghost use Rattle.sp_frame.specs.OfFormat.{AreOf, IsOf, IsSlotOf};
ghost use Rattle.sp_frame.specs.Views.{as_contents, as_list, as_object};
ghost use Rattle.sp_msg.specs.Bodies.{encoded_in, read_body_in};
ghost use Rattle.sp_msg.specs.Views.{as_body};
ghost use Rattle.sp_msg.specs.declared.kept.Kept.{Kept};
ghost use Rattle.sp_node_format.specs.Format.{format_in};
ghost use Rattle.sp_rules.specs.Answers.{is_new};
ghost use Rattle.sp_rules.specs.Arrivals.{pieces_beside};
ghost use Rattle.sp_rules.specs.Pieces.{pieces_of};
ghost use Rattle.sp_runs.specs.Forgery.{is_forged};
ghost use Rattle.sp_runs.specs.Scenarios.{setting_of};
ghost use Rattle.sp_forgery.specs.Turns.{epoch_objects, forged_in_turn, handled_of, or_later, slot_objects};

use crate::hints::Hints;
use crate::nodes::is_correct;
use crate::signed::was_signed;
use sp_base::Four;
use sp_frame::{ObjectRef, Sections, Slot};
use sp_journal::Entry;
use sp_msg::{BodyRef, a_body_has_one_spelling, signer};
use sp_rules::{AckAnswer, EpochAnswer, Item, PrioAnswer, RelAnswer, WeightAnswer};
use sp_schedule_events::{Event, Scenario};

/// What was done before an event.
#[derive(Clone, Copy, Debug)]
pub struct Known<'a> {
    pub scenario: &'a Scenario,
    /// How long each signature is.
    pub signature_len: usize,
    pub hints: &'a Hints,
    /// The events before, and their entries.
    pub events: &'a [Event],
    pub journal: &'a [Entry],
}

/// What a look at an object found, and the answers to those after it.
#[derive(Clone, Copy, Debug)]
struct Looked<'a, 'b> {
    found: Option<&'a [u8]>,
    rest: &'b [Item],
}

/// The first object of a handled frame of the scenario's format that is forged: its bytes. The answers are those to its objects, in the order of handling.
/// Beside a document there is none.
#[tactic(auto, using(crate::proofs::Turns::none_left))]
pub fn first_forged<'a>(
    known: &Known<'_>,
    sections: &Sections<'a>,
    items: &[Item],
) -> Option<&'a [u8]>
    requires known { length known.now.events.now ≡ length known.now.journal.now }
    requires of_format { AreOf known.now.scenario.now.format sections.now }
    ensures { option_map (λ b. b.now) result
        ≡ forged_in_turn (setting_of known.now.scenario.now) known.now.events.now known.now.journal.now
        (objects_in (pieces_beside (as_contents sections.now).document (pieces_of (handled_of known.now.scenario.now.epochs (as_contents sections.now)))))
        items.now }
{
    match sections.document {
        Some(_) => None,
        None => first_in(known, sections, items),
    }
}

/// The first one where there is no document. The Epoch object comes last. A node handles it where nodes run with epochs.
#[tactic(auto, using(crate::proofs::Turns::objects_in_sections))]
fn first_in<'a>(known: &Known<'_>, sections: &Sections<'a>, items: &[Item]) -> Option<&'a [u8]>
    requires known { length known.now.events.now ≡ length known.now.journal.now }
    requires of_format { AreOf known.now.scenario.now.format sections.now }
    ensures { option_map (λ b. b.now) result
        ≡ forged_in_turn (setting_of known.now.scenario.now) known.now.events.now known.now.journal.now
        (objects_in (pieces_of (handled_of known.now.scenario.now.epochs (as_contents sections.now)))) items.now }
{
    let weight = look(known, &sections.weight, items);
    if weight.found.is_some() {
        return weight.found;
    }
    let prios = look_all(
        known,
        &objects_of(known.scenario.format, &sections.prios, 0),
        0,
        weight.rest,
    );
    if prios.found.is_some() {
        return prios.found;
    }
    let slot = look_in(known, &sections.slot, prios.rest);
    if slot.found.is_some() {
        return slot.found;
    }
    let paths = look_in(known, &sections.paths, slot.rest);
    if paths.found.is_some() {
        return paths.found;
    }
    in_epoch(known, &sections.epoch, paths.rest)
}

/// The same of the Epoch object, which is looked at where nodes run with epochs.
#[tactic(auto, using(crate::proofs::Turns::none_left))]
fn in_epoch<'a>(
    known: &Known<'_>,
    object: &Option<ObjectRef<'a>>,
    items: &[Item],
) -> Option<&'a [u8]>
    requires known { length known.now.events.now ≡ length known.now.journal.now }
    requires of_format { IfSome object.now (IsOf known.now.scenario.now.format) }
    ensures { option_map (λ b. b.now) result
        ≡ forged_in_turn (setting_of known.now.scenario.now) known.now.events.now known.now.journal.now
        (epoch_objects known.now.scenario.now.epochs object.now) items.now }
{
    if !known.scenario.epochs {
        return None;
    }
    look(known, object, items).found
}

/// Looks at the objects of a slot, if there is one, with the first of the answers.
fn look_in<'a, 'b>(known: &Known<'_>, slot: &Option<Slot<'a>>, items: &'b [Item]) -> Looked<'a, 'b>
    requires known { length known.now.events.now ≡ length known.now.journal.now }
    requires of_format { IfSome slot.now (IsSlotOf known.now.scenario.now.format) }
    ensures { (os : List Kept) → forged_in_turn (setting_of known.now.scenario.now) known.now.events.now known.now.journal.now
        (slot_objects slot.now os) items.now
        ≡ or_later (option_map (λ b. b.now) result.found)
        (forged_in_turn (setting_of known.now.scenario.now) known.now.events.now known.now.journal.now os result.rest.now) }
{
    let Some(slot) = slot else {
        return Looked {
            found: None,
            rest: items,
        };
    };
    let ack = look(known, &slot.ack, items);
    if ack.found.is_some() {
        return ack;
    }
    look_all(known, &slot.rels, 0, ack.rest)
}

/// Looks at an object, if there is one, with the first of the answers.
fn look<'a, 'b>(
    known: &Known<'_>,
    object: &Option<ObjectRef<'a>>,
    items: &'b [Item],
) -> Looked<'a, 'b>
    requires known { length known.now.events.now ≡ length known.now.journal.now }
    requires of_format { IfSome object.now (IsOf known.now.scenario.now.format) }
    ensures { (os : List Kept) → forged_in_turn (setting_of known.now.scenario.now) known.now.events.now known.now.journal.now
        (as_list (option_map as_object object.now) ++ os) items.now
        ≡ or_later (option_map (λ b. b.now) result.found)
        (forged_in_turn (setting_of known.now.scenario.now) known.now.events.now known.now.journal.now os result.rest.now) }
{
    match object {
        Some(object) => look_at(known, object, items),
        None => Looked {
            found: None,
            rest: items,
        },
    }
}

/// Looks at the objects from this place on, with the first of the answers, up to the first that is forged.
fn look_all<'a, 'b>(
    known: &Known<'_>,
    objects: &Four<ObjectRef<'a>>,
    place: usize,
    items: &'b [Item],
) -> Looked<'a, 'b>
    requires known { length known.now.events.now ≡ length known.now.journal.now }
    requires of_format { All (IsOf known.now.scenario.now.format) objects.now }
    ensures { (os : List Kept) → forged_in_turn (setting_of known.now.scenario.now) known.now.events.now known.now.journal.now
        (map as_object (drop place objects.now) ++ os) items.now
        ≡ or_later (option_map (λ b. b.now) result.found)
        (forged_in_turn (setting_of known.now.scenario.now) known.now.events.now known.now.journal.now os result.rest.now) }
{
    let Some(object) = objects.get(place) else {
        return Looked {
            found: None,
            rest: items,
        };
    };
    let first = look_at(known, object, items);
    if first.found.is_some() {
        return first;
    }
    look_all(known, objects, place + 1, first.rest)
}

/// Looks at an object with the first of the answers.
fn look_at<'a, 'b>(known: &Known<'_>, object: &ObjectRef<'a>, items: &'b [Item]) -> Looked<'a, 'b>
    requires known { length known.now.events.now ≡ length known.now.journal.now }
    requires of_format { IsOf known.now.scenario.now.format object.now }
    ensures { (os : List Kept) → forged_in_turn (setting_of known.now.scenario.now) known.now.events.now known.now.journal.now
        (as_object object.now ∷ os) items.now
        ≡ or_later (option_map (λ b. b.now) result.found)
        (forged_in_turn (setting_of known.now.scenario.now) known.now.events.now known.now.journal.now os result.rest.now) }
{
    match items.split_first() {
        None => Looked {
            found: None,
            rest: items,
        },
        Some((item, rest)) => Looked {
            found: found_in(known, object, *item),
            rest,
        },
    }
}

/// The bytes of an object that is forged.
fn found_in<'a>(known: &Known<'_>, object: &ObjectRef<'a>, item: Item) -> Option<&'a [u8]>
    requires known { length known.now.events.now ≡ length known.now.journal.now }
    requires of_format { IsOf known.now.scenario.now.format object.now }
    ensures { option_map (λ b. b.now) result
        ≡ (if is_forged (format_in known.now.scenario.now.format) (setting_of known.now.scenario.now)
        known.now.events.now known.now.journal.now
        (as_object object.now, item) then Some (encoded_in known.now.scenario.now.format (as_object object.now).body) else None) }
{
    if is_forged(known, object, item) {
        Some(message_of(known.scenario.format, object))
    } else {
        None
    }
}

/// Whether the object is new, and its signer is correct and never signed it.
fn is_forged(known: &Known<'_>, object: &ObjectRef<'_>, item: Item) -> bool
    requires known { length known.now.events.now ≡ length known.now.journal.now }
    requires of_format { IsOf known.now.scenario.now.format object.now }
    ensures { result ≡ is_forged (format_in known.now.scenario.now.format) (setting_of known.now.scenario.now)
        known.now.events.now known.now.journal.now (as_object object.now, item) }
{
    let by = signer(&object.body);
    is_new(item)
        && is_correct(known.scenario, by)
        && !was_signed(
            known.hints,
            known.events,
            known.journal,
            by,
            message_of(known.scenario.format, object),
        )
}

fn is_new(item: Item) -> bool
    ensures { result ≡ is_new item }
{
    matches!(
        item,
        Item::Weight(WeightAnswer::New)
            | Item::Prio(PrioAnswer::New)
            | Item::Ack(AckAnswer::New)
            | Item::Rel(RelAnswer::New)
            | Item::Kack(AckAnswer::New)
            | Item::Krel(RelAnswer::New)
            | Item::Epoch(EpochAnswer::New)
    )
}

/// The objects of messages with link numbers, from this place on.
fn objects_of<'a>(
    _format: u8,
    prios: &Four<(u64, ObjectRef<'a>)>,
    place: usize,
) -> Four<ObjectRef<'a>>
    requires { All (λ m. IsOf _format m.1) prios.now }
    ensures objects { map as_object result ≡ map (λ m. as_object m.1) (drop place prios.now) }
    ensures many { length result ≡ length prios.now - place }
    ensures of_format { All (IsOf _format) result }
{
    match prios.get(place) {
        Some((_, object)) => objects_of(_format, prios, place + 1).led_by(*object),
        None => Four::new(),
    }
}

/// The bytes of an object's message.
fn message_of<'a>(format: u8, object: &ObjectRef<'a>) -> &'a [u8]
    requires { IsOf format object.now }
    ensures { result.now ≡ encoded_in format (as_object object.now).body }
{
    spells(format, object.bytes, &object.body);
    object.bytes
}

/// Bytes that are read as a message of a format are its bytes.
fn spells(_format: u8, bytes: &[u8], body: &BodyRef<'_>)
    requires { read_body_in _format bytes.now ≡ Ok (as_body body.now) }
    ensures { bytes.now ≡ encoded_in _format (as_body body.now) }
{
    a_body_has_one_spelling();
}
