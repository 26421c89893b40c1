// The events of a number's schedule: messages, what compromised nodes send, frames in cycles, and takes.
ghost use Rattle.std.specs.Prelude.{◌≡◌, ◌++◌, ◌∷◌, [], IfOk, OnOk, replicate};
ghost use Rattle.std.specs.List.{flat_map, range_with_len};
ghost use Rattle.sp_generate.specs.Generated as made;
ghost use Rattle.sp_generate.specs.Generated.{both_ways, by_priority, generated_events, hostile};
ghost use Rattle.sp_schedule_events.specs.declared.event.Event.TheVariants as variants;

use sp_base::{Bytes, Memory, NodeId, push};
use sp_schedule_crafts::{CraftedObject, CraftedRel};
use sp_schedule_events::Event;
use std::alloc::Global;

/// The directions between correct neighbours, in ascending order.
const DIRECTIONS: [(u8, u8); 14] = [
    (1, 2),
    (1, 5),
    (2, 1),
    (2, 3),
    (2, 6),
    (3, 2),
    (3, 7),
    (5, 1),
    (5, 6),
    (6, 2),
    (6, 5),
    (6, 7),
    (7, 3),
    (7, 6),
];

/// All events.
pub fn events(alloc: Global, number: u32) -> Result<Vec<Event>, Memory>
    ensures { IfOk result (λ made. made.items ≡ generated_events number) }
{
    let mut events = Vec::new(alloc);
    push_both_ways(alloc, &mut events, number)?;
    push_by_priority(alloc, &mut events, number)?;
    push_hostile(alloc, &mut events, number)?;
    push_cycles(&mut events)?;
    push_takes(&mut events, NodeId(7), NodeId(1))?;
    push_takes(&mut events, NodeId(1), NodeId(7))?;
    Ok(events)
}

/// The payload of the messages of a turn.
fn payload(alloc: Global, number: u32, turn: u32) -> Result<Bytes, Memory>
    ensures { IfOk result (λ bytes. bytes ≡ made.payload number turn) }
{
    let mut bytes = Vec::from_slice(alloc, number.to_be_bytes().as_slice())?;
    bytes.extend_from_slice(turn.to_be_bytes().as_slice())?;
    Ok(Bytes::from_vec(bytes))
}

// ---- messages

fn push_both_ways(alloc: Global, events: &mut Vec<Event>, number: u32) -> Result<(), Memory>
    ensures { OnOk result (events.new.items ≡ events.old.items ++ flat_map (both_ways number) (range_with_len 1 16)) }
{
    'turns: for turn in 1..17 {
        push_rel(alloc, events, NodeId(1), NodeId(7), number, turn)?;
        push_rel(alloc, events, NodeId(7), NodeId(1), number, turn)?;
    }
    Ok(())
}

fn push_rel(
    alloc: Global,
    events: &mut Vec<Event>,
    s: NodeId,
    d: NodeId,
    number: u32,
    turn: u32,
) -> Result<(), Memory>
    ensures { OnOk result (events.new.items ≡ events.old.items ++ variants.Rel s d (made.payload number turn) ∷ []) }
{
    let payload = payload(alloc, number, turn)?;
    push(events, Event::Rel { s, d, payload })
}

fn push_by_priority(alloc: Global, events: &mut Vec<Event>, number: u32) -> Result<(), Memory>
    ensures { OnOk result (events.new.items ≡ events.old.items ++ flat_map (by_priority number) (range_with_len 1 4)) }
{
    'turns: for turn in 1..5 {
        push_prio(alloc, events, (2, 6), (5, 0), number, turn)?;
        push_prio(alloc, events, (1, 7), (3, 2), number, turn)?;
    }
    Ok(())
}

/// A priority message between two nodes, of a priority and over so many paths.
fn push_prio(
    alloc: Global,
    events: &mut Vec<Event>,
    ends: (u8, u8),
    way: (u8, u8),
    number: u32,
    turn: u32,
) -> Result<(), Memory>
    ensures { OnOk result (events.new.items ≡ events.old.items
        ++ variants.Prio (made.node ends.0) (made.node ends.1) way.0 1000000 way.1 (made.payload number turn) ∷ []) }
{
    let event = Event::Prio {
        s: NodeId(ends.0),
        d: NodeId(ends.1),
        prio: way.0,
        expiry: 1_000_000,
        paths: way.1,
        payload: payload(alloc, number, turn)?,
    };
    push(events, event)
}

// ---- what compromised nodes send

fn push_hostile(alloc: Global, events: &mut Vec<Event>, number: u32) -> Result<(), Memory>
    ensures { OnOk result (events.new.items ≡ events.old.items ++ hostile number) }
{
    push_crafted(alloc, events, number, NodeId(3), NodeId(4))?;
    push_crafted(alloc, events, number, NodeId(5), NodeId(8))?;
    let bytes = Bytes::copy(alloc, [255, 255].as_slice())?;
    let event = Event::Inject {
        u: NodeId(8),
        v: NodeId(1),
        bytes,
    };
    push(events, event)
}

/// A frame for a neighbour with a message that a node signed.
fn push_crafted(
    alloc: Global,
    events: &mut Vec<Event>,
    number: u32,
    v: NodeId,
    key: NodeId,
) -> Result<(), Memory>
    ensures { OnOk result (events.new.items ≡ events.old.items ++ made.crafted number v.0 key.0 ∷ []) }
{
    let object = CraftedObject::Rel(CraftedRel {
        src: NodeId(4),
        dst: NodeId(6),
        seq: 1,
        payload: payload(alloc, number, 1)?,
    });
    let event = Event::Craft {
        c: NodeId(4),
        v,
        key,
        object,
    };
    push(events, event)
}

// ---- frames and takes

fn push_cycles(events: &mut Vec<Event>) -> Result<(), Memory>
    ensures { OnOk result (events.new.items ≡ events.old.items ++ flat_map made.cycle (range_with_len 1 130)) }
{
    'turns: for turn in 1..131 {
        push_cycle(events, turn)?;
    }
    Ok(())
}

fn push_cycle(events: &mut Vec<Event>, turn: u32) -> Result<(), Memory>
    ensures { OnOk result (events.new.items ≡ events.old.items ++ made.cycle turn) }
{
    push_frames(events, &DIRECTIONS, turn)?;
    push_tick(events, NodeId(1), turn)?;
    push_tick(events, NodeId(7), turn)?;
    Ok(())
}

/// The clock of a node says this moment.
fn push_tick(events: &mut Vec<Event>, u: NodeId, turn: u32) -> Result<(), Memory>
    ensures { OnOk result (events.new.items ≡ events.old.items ++ variants.Tick u turn ∷ []) }
{
    let now = u64::from(turn);
    push(events, Event::Tick { u, now })
}

/// The frame of this number of each direction.
fn push_frames(events: &mut Vec<Event>, directions: &[(u8, u8)], number: u32) -> Result<(), Memory>
    ensures { OnOk result (events.new.items ≡ events.old.items ++ flat_map (made.frame number) directions.now) }
{
    'directions: for direction in directions {
        let (u, v) = (NodeId(direction.0), NodeId(direction.1));
        push(events, Event::Poll { u, v })?;
        push(events, Event::Pass { u, v, number })?;
    }
    Ok(())
}

/// A client of `d` takes 16 messages from `s`.
fn push_takes(events: &mut Vec<Event>, d: NodeId, s: NodeId) -> Result<(), Memory>
    ensures { OnOk result (events.new.items ≡ events.old.items ++ replicate 16 (variants.Take d s)) }
{
    'takes: for i in 0..16u32 {
        push(events, Event::Take { d, s })?;
    }
    Ok(())
}
