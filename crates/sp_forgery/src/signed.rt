// Whether a node signed a message before: the event at the hint is looked at first, and else each event.
ghost use Rattle.std.specs.Prelude.{true, ◌≡◌, IsTrue, length};
ghost use Rattle.std.specs.List.{flat_map};
ghost use Rattle.sp_runs.specs.Forgery.{is_among};
ghost use Rattle.sp_runs.specs.Told.{signed, signed_by, told_at};

use crate::hints::Hints;
use sp_base::NodeId;
use sp_journal::Entry;
use sp_msg::Effect;
use sp_schedule_events::Event;

/// Whether the node signed this message at one of these events.
pub fn was_signed(
    hints: &Hints,
    events: &[Event],
    journal: &[Entry],
    node: NodeId,
    message: &[u8],
) -> bool
    requires { length events.now ≡ length journal.now }
    ensures { result ≡ is_among message.now (signed events.now journal.now node) }
{
    if signed_at(events, journal, hints.at(message), node, message) {
        return true;
    }
    signed_anywhere(events, journal, node, message)
}

/// The same by a walk over all.
fn signed_anywhere(events: &[Event], journal: &[Entry], node: NodeId, message: &[u8]) -> bool
    requires { length events.now ≡ length journal.now }
    ensures { result ≡ is_among message.now (signed events.now journal.now node) }
{
    let mut events = events;
    let mut journal = journal;
    'events: while let (Some((event, later)), Some((entry, after))) = (
        events.split_first(),
        journal.split_first(),
    ) {
        if signs_in(event, entry, node, message) {
            return true;
        }
        events = later;
        journal = after;
    }
    false
}

/// Whether it did so at the event of this place.
fn signed_at(
    events: &[Event],
    journal: &[Entry],
    place: usize,
    node: NodeId,
    message: &[u8],
) -> bool
    requires { length events.now ≡ length journal.now }
    ensures { IsTrue result → is_among message.now (signed events.now journal.now node) ≡ true }
{
    if place >= events.len() {
        return false;
    }
    signs_in(&events[place], &journal[place], node, message)
}

/// Whether the node signed this message at this event.
fn signs_in(event: &Event, entry: &Entry, node: NodeId, message: &[u8]) -> bool
    ensures { result ≡ is_among message.now (told_at node signed_by (event.now, entry.now)) }
{
    event.acting().0 == node.0 && signs_one(entry.effects.as_slice(), message)
}

/// Whether one of these effects is that this message was signed.
fn signs_one(effects: &[Effect], message: &[u8]) -> bool
    ensures { result ≡ is_among message.now (flat_map signed_by effects.now) }
{
    'effects: for effect in effects {
        if signs(effect, message) {
            return true;
        }
    }
    false
}

fn signs(effect: &Effect, message: &[u8]) -> bool
    ensures { result ≡ is_among message.now (signed_by effect.now) }
{
    match effect {
        Effect::Signed(bytes) => bytes.as_slice() == message,
        _ => false,
    }
}
