// The events of a schedule in their order, with the number of polls of each direction, with which nodes are started, and with what was published.
ghost use Rattle.std.specs.Prelude.{◌≡◌, ◌<◌, ◌∷◌, ◌++◌, [], length, OnOk, OnErr};
ghost use Rattle.sp_base.specs.declared.limits.TheConstants.{MAX_EVENTS};
ghost use Rattle.sp_schedule_events.specs.Documents.{published};
ghost use Rattle.sp_schedule_events.specs.Events.{polls};
ghost use Rattle.sp_schedule_events.specs.Lives.{is_started};

use crate::Event;
use crate::poll_counts::PollCounts;
use crate::published::{Published, add_list, list_in, none_published};
use crate::started_nodes::{IDS, note};
use sp_base::{Memory, NodeId, push_in_room};
use std::alloc::Global;
use std::marker::Model;

/// Events in the order in which they happen.
#[derive(Debug, Drop)]
pub struct Timeline {
    events: Vec<Event>,
    counts: PollCounts,
    started: [bool; 256],
    published: Published,
    alloc: Global,
}

impl Model for Timeline {
    ghost use Rattle.std.specs.Prelude.{List};
    ghost use Rattle.sp_schedule_events.specs.declared.event.Event as event;
    ghost use Rattle.sp_schedule_events.specs.StartedNodes.{AreKept};

    ghost Value = { List event.Event };

    ghost view = { λ t. t.events.items };

    ghost invariant = { λ t. AreKept t.events.items t.counts t.started t.published };
}

impl Timeline {
    /// No event yet. It takes no memory.
    pub fn new(alloc: Global) -> Timeline
        ensures { result ≡ [] }
    {
        Timeline {
            events: Vec::new(alloc),
            counts: PollCounts::new(alloc),
            started: [false; IDS],
            published: none_published(),
            alloc,
        }
    }

    pub fn as_slice(&self) -> &[Event]
        ensures { result.now ≡ self.now }
    {
        self.events.as_slice()
    }

    pub fn len(&self) -> usize
        ensures { result ≡ length self.now }
    {
        self.events.len()
    }

    /// How many frames the events make of `u` for `v`.
    pub fn polls(&self, u: NodeId, v: NodeId) -> u32
        ensures { result ≡ polls self.now u.0 v.0 }
    {
        self.counts.polls(u, v)
    }

    /// Whether the events leave the node started.
    pub fn is_started(&self, u: NodeId) -> bool
        ensures { result ≡ is_started self.now u.0 }
    {
        self.started[u.0 as usize]
    }

    /// What the events publish.
    pub fn published(&self) -> &Published
        ensures { result.now ≡ published self.now }
    {
        &self.published
    }

    /// One more event at the end. After an error the events are as before.
    pub fn push(&mut self, event: Event) -> Result<(), Memory>
        requires { length self.old < MAX_EVENTS }
        ensures ok { OnOk result (self.new ≡ self.old ++ event ∷ []) }
        ensures err { OnErr result (self.new ≡ self.old) }
    {
        self.events.reserve(1)?;
        let list = list_in(self.alloc, &event)?;
        self.counts.count(&event)?;
        add_list(&mut self.published, list);
        note(&mut self.started, &event);
        push_in_room(&mut self.events, event);
        Ok(())
    }
}
