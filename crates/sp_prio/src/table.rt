// The table of the priority part. Every call is judged first, its memory taken next, and changes come last.
ghost use Rattle.std.specs.Prelude.{◌≡◌, ◌<◌, ◌≤◌, ◌+◌, ◌*◌, ◌^◌, All, IfOk, length, map, vec_capacity};
ghost use Rattle.sp_base.specs.declared.limits.TheConstants.{MAX_MESSAGES};
ghost use Rattle.sp_rules.specs.Changes.{FitsAFormat};
ghost use Rattle.sp_msg.specs.Views.{as_body};
ghost use Rattle.sp_rules.specs.Polls.{as_message};
ghost use Rattle.sp_rules.specs.Prio.{acked, acked_effects, admit_prio, carried, closed, closed_effects, entry_count, expired, expired_effects, expiring};
ghost use Rattle.sp_rules.specs.Prio.{heard, is_there};
ghost use Rattle.sp_rules.specs.Prio.{judge_fields, judge_prio, marked, next_prios, peer_in, places, prio_effects, renewed, spread, start};
ghost use Rattle.sp_rules.specs.Prio.{taken, unheard};
ghost use Rattle.sp_rules.specs.Store.{oldest};
ghost use Rattle.sp_rules.specs.Told.{told};
ghost use Rattle.sp_prio.specs.Parcel.{AreBeside};
ghost use Rattle.sp_prio.specs.Spare.{IsSpareOf};
ghost use Rattle.sp_rules.specs.declared.store.TheConstants.{IDS};

use crate::field::{dst_of, next_after_own, seq_of, src_of};
use crate::peer::Peer;
use crate::removed::refill;
use crate::rows::{
    close_peers, count_to, entries_in, expire_peers, leaving_in, peers_of, place_of, spread,
};
use crate::windows::{clear, is_node, mark, seen_in, windows_of};
use crate::{Parcel, Spare, place};
use sp_base::{Four, Memory, NodeId};
use sp_dedup::Window;
use sp_msg::{Body, BodyRef, Effects, Kept};
use sp_rules::{Entry, Neighbour, PrioJudged};
use sp_store::{Leaving, Store};
use std::alloc::Global;
use std::marker::Model;

/// The priority part of a node: an inbox and a store for each neighbour, and a window for each node.
#[derive(Debug, Drop)]
pub struct PrioTable {
    me: NodeId,
    nodes: Vec<NodeId>,
    /// Those of them that are removed. It has room for all.
    removed: Vec<NodeId>,
    inbox: Store,
    peers: Vec<Peer>,
    windows: Vec<Window>,
    next: u64,
}

impl Model for PrioTable {
    ghost use Rattle.std.specs.Prelude.{vec_capacity};
    ghost use Rattle.sp_rules.specs.Prio.{PrioState};
    ghost use Rattle.sp_prio.specs.Sound.{IsSound};

    ghost Value = { PrioState };

    ghost view = { λ t. record {
      me = t.me.0;
      nodes = t.nodes.items;
      removed = t.removed.items;
      inbox = t.inbox;
      peers = t.peers.items;
      windows = t.windows.items;
      next = t.next;
    } };

    ghost invariant = { λ t. IsSound t.nodes.items (vec_capacity t.removed) t.peers.items t.windows.items };
}

impl PrioTable {
    /// Nothing was stored, seen or sent. It takes all memory of the stores.
    pub fn new(
        alloc: Global,
        me: NodeId,
        nodes: &[NodeId],
        neighbours: &[Neighbour],
        store: u16,
    ) -> Result<PrioTable, Memory>
        requires { length neighbours.now ≤ IDS }
        ensures { IfOk result (λ table. table ≡ start me.0 nodes.now neighbours.now store) }
    {
        let nodes = Vec::from_slice(alloc, nodes)?;
        let windows = windows_of(alloc, nodes.len())?;
        let peers = peers_of(alloc, neighbours, store)?;
        let removed = Vec::with_capacity(alloc, nodes.len())?;
        let inbox = Store::new(alloc, store)?;
        Ok(PrioTable {
            me,
            nodes,
            removed,
            inbox,
            peers,
            windows,
            next: 1,
        })
    }

    /// What becomes of a message when it comes, before its signature is looked at: the first answer that applies. A message of another kind has no end
    /// that is right.
    pub fn judge_ref(&self, body: &BodyRef<'_>, now: u64) -> PrioJudged
        ensures { result ≡ judge_prio self.now (as_body body.now) now }
    {
        match body {
            BodyRef::Prio(prio) => {
                self.judge_fields(prio.src, prio.dst, prio.seq, prio.expiry, now)
            }
            _ => PrioJudged::BadEnd,
        }
    }

    /// The message with a copy for each place that it goes into, from a neighbour or from this node itself.
    pub fn parcel_of(
        &self,
        alloc: Global,
        kept: Kept,
        came: Option<NodeId>,
    ) -> Result<Parcel, Memory>
        ensures { IfOk result (λ parcel. parcel ≡ record { kept = kept; came = came; copies = places self.now kept.body came }) }
    {
        let copies = self.places(&kept.body, came);
        Parcel::new(alloc, kept, came, copies)
    }

    /// The copies that a parcel has beside its message, made before the message is signed.
    pub fn spare(&self, alloc: Global, kept: &Kept, came: Option<NodeId>) -> Result<Spare, Memory>
        ensures of_it { IfOk result (IsSpareOf kept.now) }
        ensures copies { IfOk result (λ spare. spare.copies ≡ places self.now kept.now.body came) }
    {
        Spare::new(alloc, kept, self.places(&kept.body, came))
    }

    /// Whether this is a node that isn't removed.
    pub fn is_there(&self, node: NodeId) -> bool
        ensures { result ≡ is_there self.now node.0 }
    {
        is_node(&self.nodes, node.0) && !is_node(&self.removed, node.0)
    }

    /// How many neighbours there are.
    pub fn neighbours(&self) -> usize
        ensures count { result ≡ length self.now.peers }
        ensures few { result ≤ IDS }
    {
        self.peers.len()
    }

    /// Marks a message as seen and puts it into its places, and tells so. One from nowhere is this node's own, and uses up its number.
    pub fn admit(&mut self, parcel: Parcel, out: &mut Effects)
        requires copies { parcel.copies ≡ places self.old parcel.kept.body parcel.came }
        requires fields { FitsAFormat parcel.kept.body }
        requires inbox { self.old.inbox.last < 2 ^ 63 }
        requires stores { All (λ q. q.store.last < 2 ^ 63) self.old.peers }
        requires room { 2 * length self.old.peers + 3 ≤ out.old.room }
        ensures table { self.new ≡ admit_prio self.old parcel.kept parcel.came }
        ensures told { out.new ≡ told out.old (prio_effects self.old parcel.kept parcel.came) }
    {
        let (kept, came, beside) = parcel.into_parts();
        self.mark(&kept.body, came);
        self.spread(kept, came, beside, out);
    }

    /// What a poll of a neighbour carries, each with its link number: what is in flight, and the entries that are served next.
    #[tactic(auto, using(sp_base::proofs::RowLemmas::placed, crate::proofs::RowLemmas::nothing_waits))]
    pub fn messages_for(&self, v: NodeId) -> Four<(u64, &Kept)>
        ensures { map (λ p. (p.0, p.1.now)) result ≡ map as_message (next_prios self.now v.0) }
    {
        match place_of(&self.peers, v) {
            Some(place) => self.peers[place].messages(),
            None => Four::new(),
        }
    }

    /// Puts what a poll of a neighbour carries in flight. What is in flight already stays so, and nothing more goes where nothing waits.
    #[tactic(auto, using(sp_base::proofs::RowLemmas::placed, crate::proofs::RowLemmas::nothing_waits))]
    pub fn carry(&mut self, v: NodeId)
        requires { (peer_in self.old v.0).number + MAX_MESSAGES ≤ 2 ^ 63 }
        ensures { self.new ≡ carried self.old v.0 }
    {
        if let Some(place) = place_of(&self.peers, v) {
            self.peers[place].carry();
        }
    }

    /// A neighbour acknowledged all link numbers up to this one.
    #[tactic(auto, using(sp_base::proofs::RowLemmas::placed, crate::proofs::RowLemmas::nothing_waits))]
    pub fn acked(&mut self, v: NodeId, number: u64, out: &mut Effects)
        requires { MAX_MESSAGES ≤ out.old.room }
        ensures table { self.new ≡ acked self.old v.0 number }
        ensures told { out.new ≡ told out.old (acked_effects self.old v.0 number) }
        ensures room { out.old.room ≤ out.new.room + MAX_MESSAGES }
    {
        if let Some(place) = place_of(&self.peers, v) {
            self.peers[place].acked(number, out);
        }
    }

    /// A message of a neighbour came under this link number, and was new or seen.
    #[tactic(auto, using(sp_base::proofs::RowLemmas::placed, crate::proofs::RowLemmas::nothing_waits))]
    pub fn heard(&mut self, v: NodeId, number: u64)
        ensures { self.new ≡ heard self.old v.0 number }
    {
        if let Some(place) = place_of(&self.peers, v) {
            self.peers[place].hear(number);
        }
    }

    /// The greatest link number that came from a neighbour: what this node acknowledges to it.
    #[tactic(auto, using(sp_base::proofs::RowLemmas::placed, crate::proofs::RowLemmas::nothing_waits))]
    pub fn heard_of(&self, v: NodeId) -> u64
        ensures { result ≡ (peer_in self.now v.0).heard }
    {
        match place_of(&self.peers, v) {
            Some(place) => self.peers[place].heard(),
            None => 0,
        }
    }

    /// Another life of a source began: none of its numbers was seen. Nothing changes where it is no node. It takes no memory.
    pub fn renew(&mut self, source: NodeId)
        ensures { self.new ≡ renewed self.old source.0 }
    {
        clear(&mut self.windows, &self.nodes, source.0);
    }

    /// Another life of a neighbour began: nothing was heard from it, and nothing is in flight to it. The last link number that was given stays. It takes no
    /// memory.
    #[tactic(auto, using(sp_base::proofs::RowLemmas::placed, crate::proofs::RowLemmas::nothing_waits))]
    pub fn forget(&mut self, neighbour: NodeId)
        ensures { self.new ≡ unheard self.old neighbour.0 }
    {
        if let Some(place) = place_of(&self.peers, neighbour) {
            self.peers[place].forget();
        }
    }

    /// How many entries of all places have an expiry before this time.
    pub fn expiring(&self, now: u64) -> usize
        ensures { result ≡ expiring self.now now }
    {
        let leaving = Leaving::Expired { now };
        self.inbox.leaving(&leaving) + leaving_in(&self.peers, &leaving)
    }

    /// Takes out all entries whose expiry is before this time, and tells of each.
    pub fn expire(&mut self, now: u64, out: &mut Effects)
        requires { expiring self.old now ≤ out.old.room }
        ensures table { self.new ≡ expired self.old now }
        ensures told { out.new ≡ told out.old (expired_effects self.old now) }
    {
        place::expire(&mut self.inbox, 0, now, out);
        expire_peers(&mut self.peers, now, out);
    }

    /// How many entries all places have.
    pub fn held(&self) -> usize
        ensures { result ≡ entry_count self.now }
    {
        place::count(&self.inbox) + entries_in(&self.peers)
    }

    /// Another version of the topology, by the weights of its edges, 0 for one that is withdrawn, and by its nodes that are removed. What waits for a withdrawn
    /// edge leaves, and what has a removed end leaves the stores of neighbours; each is told. The inbox stays. It takes no memory.
    pub fn withdraw(&mut self, weights: &[u32], removed: &[NodeId], out: &mut Effects)
        requires few { length removed.now ≤ length self.old.nodes }
        requires room { entry_count self.old ≤ out.old.room }
        ensures table { self.new ≡ closed self.old weights.now removed.now }
        ensures told { out.new ≡ told out.old (closed_effects self.old weights.now removed.now) }
    {
        refill(&mut self.removed, removed);
        close_peers(&mut self.peers, weights, removed, out);
    }

    /// The number of this node's next own message.
    pub fn next_seq(&self) -> u64
        ensures { result ≡ self.now.next }
    {
        self.next
    }

    /// Takes the oldest message of the inbox. None exactly where it is empty.
    pub fn take(&mut self) -> Option<Entry>
        ensures entry { result ≡ oldest self.old.inbox }
        ensures table { self.new ≡ taken self.old }
    {
        self.inbox.oldest()
    }

    fn judge_fields(&self, src: NodeId, dst: NodeId, seq: u64, expiry: u64, now: u64) -> PrioJudged
        ensures { result ≡ judge_fields self.now src.0 dst.0 seq expiry now }
    {
        if !self.is_there(src) || !self.is_there(dst) || src.0 == dst.0 {
            return PrioJudged::BadEnd;
        }
        if expiry < now {
            return PrioJudged::Expired;
        }
        if src.0 == self.me.0 || seen_in(&self.windows, &self.nodes, src.0, seq) {
            return PrioJudged::Seen;
        }
        PrioJudged::New
    }

    /// Marks the number of a message in the window of its source. An own message uses up its number.
    fn mark(&mut self, body: &Body, came: Option<NodeId>)
        requires { FitsAFormat body.now }
        ensures { self.new ≡ marked self.old body.now came }
    {
        mark(&mut self.windows, &self.nodes, src_of(body), seq_of(body));
        self.next = next_after_own(self.next, body, came);
    }

    /// Puts a message into its places, a copy into each, and tells so.
    fn spread(&mut self, kept: Kept, came: Option<NodeId>, beside: Vec<Kept>, out: &mut Effects)
        requires beside { AreBeside kept (places self.old kept.body came) beside.items (vec_capacity beside) }
        requires inbox { self.old.inbox.last < 2 ^ 63 }
        requires stores { All (λ q. q.store.last < 2 ^ 63) self.old.peers }
        requires room { 2 * length self.old.peers + 3 ≤ out.old.room }
        ensures table { self.new ≡ spread self.old kept came }
        ensures told { out.new ≡ told out.old (prio_effects self.old kept came) }
    {
        if dst_of(&kept.body) == self.me.0 {
            place::deliver(&mut self.inbox, kept, beside, out);
        } else {
            spread(&mut self.peers, kept, came, beside, out);
        }
    }

    /// Into how many places a message goes.
    fn places(&self, body: &Body, came: Option<NodeId>) -> usize
        ensures { result ≡ places self.now body.now came }
    {
        if dst_of(body) == self.me.0 {
            return 1;
        }
        count_to(&self.peers, body, came)
    }
}
