// What a place holds, effect after effect, and where it first holds too much or an eviction doesn't leave its share.
ghost use Rattle.std.specs.Prelude.{◌≡◌, ◌==◌, ◌∷◌, ◌↔◌, [], IfOk, IsTrue, OnOk, filter, length, not};
ghost use Rattle.sp_audit.specs.Firsts.{IsFirst, KeepsPlace};
ghost use Rattle.sp_audit.specs.Shelves.{TakesAll, shelf_after, with_entry, without};
ghost use Rattle.sp_rules.specs.Window.{is_in};
ghost use Rattle.sp_runs.specs.Held.{ShareIf};

use crate::acts::effects_when;
use crate::share::{Held, is_share};
use sp_base::{Memory, NodeId, push};
use sp_journal::Entry;
use sp_msg::{Effect, Why};
use sp_schedule_events::Event;
use std::alloc::Global;
use std::marker::Model;

/// The number of the first event after which place `p` of `u` holds more than its capacity or an eviction didn't leave its share, counted from 1: one more than
/// there are where there is none. Each event and each effect is looked at once.
pub fn place_first(
    alloc: Global,
    capacity: u16,
    events: &[Event],
    journal: &[Entry],
    u: NodeId,
    p: u8,
) -> Result<usize, Memory>
    requires { length events.now ≡ length journal.now }
    ensures { IfOk result (IsFirst (KeepsPlace capacity events.now journal.now u p) (length events.now)) }
{
    let mut shelf = Shelf::new(alloc);
    'events: for place in 0..events.len() {
        let effects = effects_when(&events[place], &journal[place], u);
        if !shelf.take_in(capacity, effects, p)? {
            return Ok(place + 1);
        }
        if usize::from(capacity) < shelf.len() {
            return Ok(place + 1);
        }
    }
    Ok(events.len() + 1)
}

/// The entries of a place, and the ids that went from it.
#[derive(Debug, Drop)]
struct Shelf {
    held: Vec<Held>,
    gone: Vec<u64>,
    /// No id that went is above it, so an id above it is found at once to be new.
    most: u64,
}

impl Model for Shelf {
    ghost use Rattle.std.specs.Prelude.{◌≤◌};
    ghost use Rattle.std.specs.List.{All};
    ghost use Rattle.sp_audit.specs.Shelves as shelves;

    ghost Value = { shelves.Shelf };

    ghost view = { λ s. record { held = s.held.items; gone = s.gone.items } };

    ghost invariant = { λ s. All (λ id. id ≤ s.most) s.gone.items };
}

impl Shelf {
    fn new(alloc: Global) -> Shelf
        ensures { result ≡ record { held = []; gone = [] } }
    {
        Shelf {
            held: Vec::new(alloc),
            gone: Vec::new(alloc),
            most: 0,
        }
    }

    fn len(&self) -> usize
        ensures { result ≡ length self.now.held }
    {
        self.held.len()
    }

    /// Some effects more. Whether each eviction among them leaves its share.
    fn take_in(&mut self, capacity: u16, effects: &[Effect], p: u8) -> Result<bool, Memory>
        ensures { IfOk result (TakesAll capacity p self.old effects.now self.new) }
    {
        'effects: for place in 0..effects.len() {
            if !self.take_one(capacity, &effects[place], p)? {
                return Ok(false);
            }
        }
        Ok(true)
    }

    /// One effect more. Whether it leaves its share, where it is an eviction.
    fn take_one(&mut self, capacity: u16, effect: &Effect, p: u8) -> Result<bool, Memory>
        ensures { IfOk result (TakesAll capacity p self.old (effect.now ∷ []) self.new) }
    {
        if !self.leaves_share(capacity, effect, p) {
            return Ok(false);
        }
        self.note(effect, p)?;
        Ok(true)
    }

    fn leaves_share(&self, capacity: u16, effect: &Effect, p: u8) -> bool
        ensures { IsTrue result ↔ ShareIf capacity p self.now.held effect.now }
    {
        match effect {
            Effect::Gone {
                place,
                id,
                why: Why::Evicted,
            } if *place == p => is_share(capacity, &self.held, *id),
            _ => true,
        }
    }

    /// One effect more.
    fn note(&mut self, effect: &Effect, p: u8) -> Result<(), Memory>
        ensures { OnOk result (self.new ≡ shelf_after p self.old effect.now) }
    {
        match effect {
            Effect::Stored {
                place,
                id,
                src,
                seq,
                prio,
            } if *place == p => self.store(Held {
                id: *id,
                src: src.0,
                seq: *seq,
                prio: *prio,
            }),
            Effect::Gone { place, id, .. } if *place == p => self.let_go(*id),
            _ => Ok(()),
        }
    }

    fn store(&mut self, entry: Held) -> Result<(), Memory>
        ensures { OnOk result (self.new ≡ with_entry self.old entry) }
    {
        if self.is_gone(entry.id) {
            return Ok(());
        }
        push(&mut self.held, entry)
    }

    fn let_go(&mut self, id: u64) -> Result<(), Memory>
        ensures { OnOk result (self.new ≡ without self.old id) }
    {
        self.most = self.most.max(id);
        push(&mut self.gone, id)?;
        remove_all(&mut self.held, id);
        Ok(())
    }

    /// Whether an entry of this id went.
    fn is_gone(&self, id: u64) -> bool
        ensures { result ≡ is_in id self.now.gone }
    {
        id <= self.most && self.gone.iter().any(|gone| *gone == id)
    }
}

/// Takes out the entries of this id.
fn remove_all(held: &mut Vec<Held>, id: u64)
    ensures { held.new.items ≡ filter (λ h. not (h.id == id)) held.old.items }
{
    held.retain(|h| h.id != id);
}
