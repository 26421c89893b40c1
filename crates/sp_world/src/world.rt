// A run of a scenario, as far as it has come.
ghost use Rattle.std.specs.Prelude.{◌≡◌, ◌<◌, IfErr, IfOk, OnOk, length, option_map, vec_capacity, vec_len};
ghost use Rattle.sp_base.specs.declared.limits.TheConstants.{MAX_EVENTS};
ghost use Rattle.sp_runs.specs.Runs.{InRange};
ghost use Rattle.sp_runs.specs.Scenarios.{IsHeader, setting_of};
ghost use Rattle.sp_runs.specs.Worlds.{at_start, frame_in, node_in};
ghost use Rattle.sp_world.specs.Boots.{IsHome};
ghost use Rattle.sp_world.specs.Scenes.{IsOf, world_in};
ghost use Rattle.sp_world.specs.Past.{GoesOn, IsPast, IsRefused, at_first};

use crate::WorldRefused;
use crate::acts::{Done, act};
use crate::home::Home;
use crate::scene::Scene;
use sp_adversary::{Crafters, signature_len};
use sp_base::{Memory, NodeId, push_in_room};
use sp_epoch::KeyStates;
use sp_forgery::{Hints, Known};
use sp_journal::Entry;
use sp_node::Node;
use sp_schedule_events::{Event, Scenario, none_published};
use sp_world_steps::{Directions, member_of};
use std::alloc::Global;
use std::marker::Model;

/// The correct nodes of a scenario with all their frames, the events that were done, and their journal. A contract sees the past: of which events
/// the nodes and frames come, and what was told of each.
#[derive(Drop)]
pub struct World {
    scenario: Scenario,
    signature_len: usize,
    home: Home,
    scene: Scene,
    hints: Hints,
    events: Vec<Event>,
    journal: Vec<Entry>,
    stopped: Option<WorldRefused>,
}

impl Model for World {
    ghost use Rattle.sp_world.specs.Kept.{IsKept};
    ghost use Rattle.sp_world.specs.Past as past;
    ghost use Rattle.sp_world.specs.Scenes.{world_in};

    ghost Value = { past.Past };

    ghost view = { λ w. record {
      scenario = w.scenario;
      events = w.events.items;
      journal = w.journal.items;
      world = world_in w.scene;
      stopped = w.stopped;
    } };

    ghost invariant = { λ w. IsKept (record {
      scenario = w.scenario;
      events = w.events.items;
      journal = w.journal.items;
      world = world_in w.scene;
      stopped = w.stopped;
    }) w.signature_len w.scene.crafters w.home };
}

impl World {
    /// A scenario before its first event: each correct node has started, or with epochs none has. Only want of memory refuses.
    #[tactic(auto, using(crate::proofs::Pasts::kept_at_first))]
    pub fn make(alloc: Global, scenario: Scenario) -> Result<World, Memory>
        requires { IsHeader scenario }
        ensures { IfOk result (λ world. world ≡ at_first scenario) }
    {
        let home = Home::make(alloc, &scenario)?;
        let scene = first_scene(alloc, &scenario, &home)?;
        let hints = Hints::new(alloc)?;
        Ok(World {
            signature_len: signature_len(scenario.height),
            home,
            scene,
            hints,
            events: Vec::new(alloc),
            journal: Vec::new(alloc),
            stopped: None,
            scenario,
        })
    }

    /// Does an event: its acting node makes one step, starts or stops, or doesn't run; and its entry is the next of the journal.
    ///
    /// `Forged` exactly where something of it is forged. Then the run ends: the event isn't one of it, the node that acted is gone, and each later event is
    /// answered the same. `Memory` leaves the events, the journal, the frames and the nodes as they were, since all memory that the world needs is taken
    /// before the node acts; but with epochs the node may have reserved indexes. Then the run ends too, and each later event is answered `Memory`.
    pub fn step(&mut self, alloc: Global, event: Event) -> Result<(), WorldRefused>
        requires range { InRange (setting_of self.old.scenario) self.old.events event }
        requires few { length self.old.events < MAX_EVENTS }
        ensures ok { OnOk result (GoesOn self.old event self.new) }
        ensures refused { IfErr result (λ refused. IsRefused self.old event refused self.new) }
    {
        if let Some(stopped) = &self.stopped {
            return Err(stopped.again(alloc));
        }
        self.stopped = Some(WorldRefused::Memory);
        make_room(&mut self.events, &mut self.journal)?;
        let known = Known {
            scenario: &self.scenario,
            signature_len: self.signature_len,
            hints: &self.hints,
            events: self.events.as_slice(),
            journal: self.journal.as_slice(),
        };
        let done = act(alloc, &known, &self.home, &mut self.scene, &event)?;
        match done {
            Done::Told(entry) => {
                let place = self.events.len() as u32;
                self.hints.note(place, entry.effects.as_slice());
                push_in_room(&mut self.events, event);
                push_in_room(&mut self.journal, entry);
                self.stopped = None;
                Ok(())
            }
            Done::Forged { what, told } => {
                let event = self.events.len() as u32 + 1;
                self.stopped = Some(WorldRefused::Forged { event, what });
                Err(WorldRefused::Forged { event, what: told })
            }
        }
    }

    /// A correct node that runs. None exactly where the node isn't one, is stopped, or acted in the event that is forged.
    pub fn node(&self, u: NodeId) -> Option<&Node>
        ensures { option_map (λ n. n.now.state) result ≡ node_in self.now.world.nodes u }
    {
        match member_of(&self.scene.nodes, u) {
            Some(member) => Some(member.node()),
            None => None,
        }
    }

    /// The frame of this number that `u` made for `v`, counted from 1. None exactly where there was no such poll, or `u` didn't run then.
    pub fn frame(&self, u: NodeId, v: NodeId, number: u32) -> Option<&[u8]>
        ensures { option_map (λ f. f.now) result ≡ frame_in self.now.world.directions u v number }
    {
        let frame = self.scene.directions.frame(u, v, number)?;
        Some(frame.as_slice())
    }

    pub fn scenario(&self) -> &Scenario
        ensures { result.now ≡ self.now.scenario }
    {
        &self.scenario
    }

    /// The events that were done.
    pub fn events(&self) -> &[Event]
        ensures { result.now ≡ self.now.events }
    {
        self.events.as_slice()
    }

    /// The entry of each event that was done.
    pub fn journal(&self) -> &[Entry]
        ensures { result.now ≡ self.now.journal }
    {
        self.journal.as_slice()
    }

    /// Why no more events are done. None exactly where more are.
    pub fn stopped(&self) -> Option<&WorldRefused>
        ensures { option_map (λ s. s.now) result ≡ self.now.stopped }
    {
        self.stopped.as_ref()
    }

    /// What always holds of a world: its events are a run in which nothing is forged, and its journal is theirs.
    pub fn is_run(&self)
        ensures { IsPast self.entry.now }
    {
        let _events = &self.events;
    }
}

/// The nodes, their key files and no frame, before the first event.
#[tactic(auto, using(crate::proofs::Pasts::at_first_plain, crate::proofs::Pasts::at_first_stopped))]
fn first_scene(alloc: Global, scenario: &Scenario, home: &Home) -> Result<Scene, Memory>
    requires header { IsHeader scenario.now }
    requires home { IsHome scenario.now home.now }
    ensures world { IfOk result (λ scene. world_in scene ≡ at_start (setting_of scenario.now)) }
    ensures crafters { IfOk result (IsOf scenario.now) }
{
    let Ok(keys) = KeyStates::new(alloc, scenario.graph.nodes) else {
        return Err(Memory);
    };
    let nodes = if scenario.epochs {
        Vec::new(alloc)
    } else {
        home.first_nodes(alloc, scenario)?
    };
    Ok(Scene {
        keys,
        nodes,
        directions: Directions::new(alloc),
        crafters: Crafters::new(alloc, scenario),
        published: none_published(),
    })
}

/// Room for one more of each.
fn make_room(events: &mut Vec<Event>, journal: &mut Vec<Entry>) -> Result<(), Memory>
    ensures events { events.new.items ≡ events.old.items }
    ensures journal { journal.new.items ≡ journal.old.items }
    ensures event_room { OnOk result (vec_len events.new < vec_capacity events.new) }
    ensures entry_room { OnOk result (vec_len journal.new < vec_capacity journal.new) }
{
    events.reserve(1)?;
    journal.reserve(1)?;
    Ok(())
}
