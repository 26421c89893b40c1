// What the priority part keeps of one neighbour: what waits for it, and what is in flight.
ghost use Rattle.std.specs.Prelude.{◌≡◌, ◌<◌, ◌≤◌, ◌+◌, ◌-◌, ◌^◌, IfOk, length, map};
ghost use Rattle.sp_base.specs.declared.limits.TheConstants.{MAX_MESSAGES};
ghost use Rattle.sp_msg.specs.Masks.{bits};
ghost use Rattle.sp_rules.specs.Polls.{as_message};
ghost use Rattle.sp_rules.specs.Prio.{is_peer};
ghost use Rattle.sp_rules.specs.PrioPeer.{acked, acked_effects, carried, closed, closed_effects, expired, expired_effects, filled, goes_to, heard, new_peer};
ghost use Rattle.sp_rules.specs.PrioPeer.{leaves as leaves_place, next_prios, put_effects, unheard};
ghost use Rattle.sp_rules.specs.Topologies.{is_shut};
ghost use Rattle.sp_rules.specs.declared.store.Entry.{Entry};
ghost use Rattle.sp_store.specs.Leaving.{leaves};
ghost use Rattle.sp_prio.specs.Flight.{with_flight};
ghost use Rattle.sp_prio.specs.Given.{goes_along};
ghost use Rattle.sp_rules.specs.Store as stores;
ghost use Rattle.sp_rules.specs.Told.{told};

use crate::field::mask_of;
use crate::flight::{Flight, land_from, messages_from};
use crate::place;
use sp_base::{EdgeId, Four, MAX_MESSAGES, Memory, NodeId};
use sp_msg::{Body, Effects, Kept, Mask, Why, mask_has};
use sp_rules::Neighbour;
use sp_store::{Leaving, Store};
use std::alloc::Global;
use std::marker::Model;

/// A neighbour, the edge to it and whether that is withdrawn, its store, the greatest link number that was heard from it, and what is in flight to it.
#[derive(Debug, Drop)]
pub struct Peer {
    id: NodeId,
    edge: EdgeId,
    shut: bool,
    store: Store,
    heard: u64,
    flight: Flight,
}

impl Model for Peer {
    ghost use Rattle.std.specs.Prelude.{◌≤◌, ◌^◌};
    ghost use Rattle.sp_rules.specs.PrioPeer.{PrioPeer};

    ghost Value = { PrioPeer };

    ghost view = { λ p. record {
      peer = p.id.0;
      edge = p.edge.0;
      shut = p.shut;
      store = p.store;
      heard = p.heard;
      number = p.flight.number;
      last = p.flight.cursor;
      flight = p.flight.pairs;
    } };

    ghost invariant = { λ p. p.flight.number ≤ 2 ^ 63 };
}

impl Peer {
    /// Nothing waits for the neighbour yet.
    pub fn new(alloc: Global, neighbour: Neighbour, capacity: u16) -> Result<Peer, Memory>
        ensures { IfOk result (λ peer. peer ≡ new_peer capacity neighbour) }
    {
        Ok(Peer {
            id: neighbour.id,
            edge: neighbour.edge,
            shut: false,
            store: Store::new(alloc, capacity)?,
            heard: 0,
            flight: Flight::start(),
        })
    }

    /// Whether this is the neighbour of this id.
    pub fn is(&self, id: NodeId) -> bool
        ensures { result ≡ is_peer id.0 self.now }
    {
        self.id.0 == id.0
    }

    /// Whether a message goes to it: its mask has the edge, which isn't withdrawn, and it didn't come from there.
    pub fn goes_to(&self, body: &Body, came: Option<NodeId>) -> bool
        ensures { result ≡ goes_to body.now came self.now }
    {
        self.goes_along(&mask_of(body), came)
    }

    /// The same by the mask alone.
    pub fn goes_along(&self, mask: &Mask, came: Option<NodeId>) -> bool
        ensures { result ≡ goes_along (bits mask.now) came self.now }
    {
        let back = match came {
            Some(from) => from.0 == self.id.0,
            None => false,
        };
        !back && mask_has(mask, self.edge) && !self.shut
    }

    /// Puts a message into its store, and tells so.
    pub fn give(&mut self, kept: Kept, out: &mut Effects)
        requires last { self.old.store.last < 2 ^ 63 }
        requires room { 2 ≤ out.old.room }
        ensures row { self.new ≡ record self.old { store = stores.put self.old.store kept } }
        ensures told { out.new ≡ told out.old (put_effects self.old.peer self.old.store kept) }
    {
        place::put(&mut self.store, self.id.0, kept, out);
    }

    /// What a poll carries: the messages in flight with their link numbers, with as many more of them as may be, and as there are.
    pub fn messages(&self) -> Four<(u64, &Kept)>
        ensures { map (λ p. (p.0, p.1.now)) result ≡ map as_message (next_prios self.now) }
    {
        let flight = self.carried();
        messages_from(&self.store, &flight.pairs, 0)
    }

    /// Puts what a poll carries in flight, where it isn't yet.
    pub fn carry(&mut self)
        requires { self.old.number + MAX_MESSAGES ≤ 2 ^ 63 }
        ensures { self.new ≡ carried self.old }
    {
        self.flight = self.carried();
    }

    /// What is in flight once a poll was made.
    fn carried(&self) -> Flight
        ensures row { with_flight self.now result ≡ carried self.now }
        ensures number { result.number ≤ self.now.number + MAX_MESSAGES }
    {
        self.filled(self.flight.settled(&self.store))
    }

    /// This flight with as many more in it as may be, and as there are.
    fn filled(&self, flight: Flight) -> Flight
        requires { flight.number + MAX_MESSAGES < 2 ^ 64 + length flight.pairs }
        ensures row { with_flight self.now result ≡ filled (MAX_MESSAGES - length flight.pairs) (with_flight self.now flight) }
        ensures number { result.number + length flight.pairs ≤ flight.number + MAX_MESSAGES }
    {
        if flight.pairs.len() == MAX_MESSAGES {
            return flight;
        }
        match self.store.next_besides(&flight.cursor, &flight.pairs) {
            Some(entry) => self.filled(flight.launched(entry)),
            None => flight,
        }
    }

    /// The neighbour acknowledged all link numbers up to this one.
    pub fn acked(&mut self, number: u64, out: &mut Effects)
        requires { MAX_MESSAGES ≤ out.old.room }
        ensures row { self.new ≡ acked self.old number }
        ensures told { out.new ≡ told out.old (acked_effects self.old number) }
        ensures room { out.old.room ≤ out.new.room + MAX_MESSAGES }
    {
        let peer = self.id.0;
        self.flight.pairs = land_from(&self.flight.pairs, 0, number, &mut self.store, peer, out);
    }

    /// A message came under this link number.
    pub fn hear(&mut self, number: u64)
        ensures { self.new ≡ heard self.old number }
    {
        self.heard = self.heard.max(number);
    }

    /// The greatest link number that came.
    pub fn heard(&self) -> u64
        ensures { result ≡ self.now.heard }
    {
        self.heard
    }

    /// Another life of it began: nothing was heard from it, and nothing is in flight to it. The last link number stays. It takes no memory.
    pub fn forget(&mut self)
        ensures { self.new ≡ unheard self.old }
    {
        self.heard = 0;
        self.flight.pairs = Four::new();
    }

    /// How many entries leave.
    pub fn leaving(&self, leaving: &Leaving<'_>) -> usize
        ensures count { result ≡ length (stores.leavers (leaves leaving.now) self.now.store) }
        ensures few { result < 2 ^ 16 }
    {
        self.store.leaving(leaving)
    }

    /// Takes out all entries whose expiry is before this time, and tells of each.
    pub fn expire(&mut self, now: u64, out: &mut Effects)
        requires { length (stores.expired_entries self.old.store now) ≤ out.old.room }
        ensures row { self.new ≡ expired self.old now }
        ensures told { out.new ≡ told out.old (expired_effects self.old.peer self.old.store now) }
    {
        place::expire(&mut self.store, self.id.0, now, out);
    }

    /// How many entries wait.
    pub fn count(&self) -> usize
        ensures count { result ≡ length self.now.store.entries }
        ensures few { result < 2 ^ 16 }
    {
        place::count(&self.store)
    }

    /// Another version of the topology: the edge is withdrawn where its weight is 0. Then all that waits leaves; else what has a removed node as an end does.
    pub fn close(&mut self, weights: &[u32], removed: &[NodeId], out: &mut Effects)
        requires { length self.old.store.entries ≤ out.old.room }
        ensures row { self.new ≡ closed weights.now removed.now self.old }
        ensures told { out.new ≡ told out.old (closed_effects weights.now removed.now self.old) }
    {
        self.shut = is_shut(weights, self.edge);
        let leaving = leaving_where(self.shut, removed);
        place::leave_all(&mut self.store, self.id.0, &leaving, Why::Withdrawn, out);
    }
}

/// Whether the edge in this place is withdrawn. So is one that isn't there.
fn is_shut(weights: &[u32], edge: EdgeId) -> bool
    ensures { result ≡ is_shut weights.now edge.0 }
{
    match weights.get(edge.0 as usize) {
        Some(weight) => *weight == 0,
        None => true,
    }
}

/// What leaves the store of a neighbour over an edge that is withdrawn or isn't, where these nodes are removed.
fn leaving_where<'a>(shut: bool, removed: &'a [NodeId]) -> Leaving<'a>
    ensures { (e : Entry) → leaves result e ≡ leaves_place shut removed.now e }
{
    if shut {
        Leaving::All
    } else {
        Leaving::Removed { nodes: removed }
    }
}
