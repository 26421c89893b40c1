// Where a priority message first comes twice.
ghost use Rattle.std.specs.Prelude.{◌≡◌, ◌∷◌, [], IfOk, length};
ghost use Rattle.sp_audit.specs.Firsts.{ComesOnce, IsFirst};
ghost use Rattle.sp_audit.specs.Seen.{TakesIn};
ghost use Rattle.sp_audit.specs.Lists.{number, numbers};

use crate::acts::effects_when;
use sp_base::{Memory, NodeId};
use sp_journal::Entry;
use sp_msg::Effect;
use sp_schedule_events::Event;
use std::alloc::Global;
use std::collections::BTreeSet;

/// The number of the first event after which a priority message from `s` came twice to `u`, counted from 1: one more than there are where there is none.
/// Each event and each effect is looked at once.
pub fn once_first(
    alloc: Global,
    events: &[Event],
    journal: &[Entry],
    s: NodeId,
    u: NodeId,
) -> Result<usize, Memory>
    requires { length events.now ≡ length journal.now }
    ensures { IfOk result (IsFirst (ComesOnce events.now journal.now s u) (length events.now)) }
{
    let mut seen = BTreeSet::new(alloc);
    'events: for place in 0..events.len() {
        let effects = effects_when(&events[place], &journal[place], u);
        if !add_all(&mut seen, effects, s)? {
            return Ok(place + 1);
        }
    }
    Ok(events.len() + 1)
}

/// Adds the numbers of the priority messages from `s` that these effects deliver. Whether each was new.
fn add_all(seen: &mut BTreeSet<u64>, effects: &[Effect], s: NodeId) -> Result<bool, Memory>
    ensures { IfOk result (TakesIn seen.old (numbers s effects.now) seen.new) }
{
    'effects: for place in 0..effects.len() {
        if !add(seen, &effects[place], s)? {
            return Ok(false);
        }
    }
    Ok(true)
}

/// The same of one effect.
fn add(seen: &mut BTreeSet<u64>, effect: &Effect, s: NodeId) -> Result<bool, Memory>
    ensures { IfOk result (TakesIn seen.old (number s effect.now) seen.new) }
{
    match effect {
        Effect::DeliveredPrio { src, seq, .. } if *src == s => insert(seen, *seq),
        _ => Ok(true),
    }
}

/// Adds a number. Whether it was new.
fn insert(seen: &mut BTreeSet<u64>, number: u64) -> Result<bool, Memory>
    ensures { IfOk result (TakesIn seen.old (number ∷ []) seen.new) }
{
    Ok(seen.insert(number)?)
}
