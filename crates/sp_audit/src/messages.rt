// What was sent and what was delivered between two nodes, and where one first isn't a prefix of the other.
ghost use Rattle.std.specs.Prelude.{◌≡◌, ◌≤◌, ◌↔◌, ◌∷◌, ◌++◌, [], IfNone, IfOk, IfSome, IsTrue, OnOk, length};
ghost use Rattle.std.specs.List.{flat_map};
ghost use Rattle.sp_audit.specs.Agreed.{Agrees, Differs};
ghost use Rattle.sp_audit.specs.Firsts.{IsFirst, KeepsOrder, KeepsOrders};
ghost use Rattle.sp_runs.specs.Told.{accepted_in, delivered_by};

use crate::acts::effects_when;
use sp_base::{Memory, NodeId, push};
use sp_journal::{Entry, Reply};
use sp_msg::Effect;
use sp_rules::FlowKind;
use sp_schedule_events::Event;
use std::alloc::Global;
use std::marker::Model;

/// A message: its number and its payload.
#[derive(Debug, Drop)]
pub struct Message<'a> {
    seq: u64,
    payload: &'a [u8],
}

impl<'a> Model for Message<'a> {
    ghost use Rattle.sp_runs.specs.Told as told;

    ghost Value = { told.Message };

    ghost view = { λ m. (m.seq, m.payload.now) };
}

impl<'a> Message<'a> {
    fn is(&self, seq: u64, payload: &[u8]) -> bool
        ensures { IsTrue result ↔ (self.now ≡ (seq, payload.now)) }
    {
        self.seq == seq && self.payload == payload
    }
}

/// The number of the first event after which what came from `s` to `d` in flows of one kind isn't a prefix of what was sent in them, counted from 1: one more
/// than there are where there is none. Each event and each effect is looked at once for each kind.
pub fn order_first(
    alloc: Global,
    events: &[Event],
    journal: &[Entry],
    s: NodeId,
    d: NodeId,
) -> Result<usize, Memory>
    requires { length events.now ≡ length journal.now }
    ensures { IfOk result (IsFirst (KeepsOrders events.now journal.now s d) (length events.now)) }
{
    let plain = first_of_kind(alloc, FlowKind::Plain, events, journal, s, d)?;
    let paths = first_of_kind(alloc, FlowKind::Paths, events, journal, s, d)?;
    Ok(plain.min(paths))
}

/// The same of one kind.
fn first_of_kind(
    alloc: Global,
    kind: FlowKind,
    events: &[Event],
    journal: &[Entry],
    s: NodeId,
    d: NodeId,
) -> Result<usize, Memory>
    requires { length events.now ≡ length journal.now }
    ensures { IfOk result (IsFirst (KeepsOrder kind events.now journal.now s d) (length events.now)) }
{
    let mut sent = Vec::new(alloc);
    let mut count = 0usize;
    'events: for place in 0..events.len() {
        let (event, entry) = (&events[place], &journal[place]);
        push_sent(&mut sent, kind, event, entry, s, d)?;
        match agreed(
            kind,
            effects_when(event, entry, d),
            s,
            sent.as_slice(),
            count,
        ) {
            Some(more) => count = more,
            None => return Ok(place + 1),
        }
    }
    Ok(events.len() + 1)
}

fn push_sent<'a>(
    found: &mut Vec<Message<'a>>,
    kind: FlowKind,
    event: &'a Event,
    entry: &Entry,
    s: NodeId,
    d: NodeId,
) -> Result<(), Memory>
    ensures { OnOk result (found.new.items ≡ found.old.items ++ accepted_in kind s d event.now entry.now.reply) }
{
    match (kind, event, &entry.reply) {
        (
            FlowKind::Plain,
            Event::Rel {
                s: from,
                d: to,
                payload,
            },
            Reply::Accepted { seq },
        )
        | (
            FlowKind::Paths,
            Event::Krel {
                s: from,
                d: to,
                payload,
                ..
            },
            Reply::Accepted { seq },
        ) if *from == s && *to == d => {
            let message = Message {
                seq: *seq,
                payload: payload.as_slice(),
            };
            push(found, message)
        }
        _ => Ok(()),
    }
}

/// How many messages of a kind are delivered after these effects, where so many of those that were sent were delivered before. None where one that came from
/// `s` isn't the next one.
fn agreed(
    kind: FlowKind,
    effects: &[Effect],
    s: NodeId,
    sent: &[Message],
    count: usize,
) -> Option<usize>
    requires { count ≤ length sent.now }
    ensures agrees { IfSome result (Agrees sent.now count (flat_map (delivered_by kind s) effects.now)) }
    ensures differs { IfNone result (Differs sent.now count (flat_map (delivered_by kind s) effects.now)) }
{
    let mut delivered = count;
    'effects: for place in 0..effects.len() {
        match next(kind, &effects[place], s, sent, delivered) {
            Some(more) => delivered = more,
            None => return None,
        }
    }
    Some(delivered)
}

/// The same of one effect.
fn next(kind: FlowKind, effect: &Effect, s: NodeId, sent: &[Message], count: usize) -> Option<usize>
    requires { count ≤ length sent.now }
    ensures agrees { IfSome result (Agrees sent.now count (delivered_by kind s effect.now)) }
    ensures differs { IfNone result (Differs sent.now count (delivered_by kind s effect.now)) }
{
    match (kind, effect) {
        (FlowKind::Plain, Effect::Delivered { src, seq, payload })
        | (FlowKind::Paths, Effect::DeliveredKrel { src, seq, payload })
            if *src == s => { after(sent, count, *seq, payload.as_slice()) }
        _ => Some(count),
    }
}

/// The same of one message that comes.
fn after(sent: &[Message], count: usize, seq: u64, payload: &[u8]) -> Option<usize>
    requires { count ≤ length sent.now }
    ensures agrees { IfSome result (Agrees sent.now count ((seq, payload.now) ∷ [])) }
    ensures differs { IfNone result (Differs sent.now count ((seq, payload.now) ∷ [])) }
{
    if count < sent.len() && sent[count].is(seq, payload) {
        Some(count + 1)
    } else {
        None
    }
}
