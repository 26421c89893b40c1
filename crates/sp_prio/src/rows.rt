// The rows of all neighbours: what is done with one, and what is done with each.
ghost use Rattle.std.specs.Prelude.{◌≡◌, ◌<◌, ◌≤◌, ◌+◌, ◌*◌, ◌^◌, All, IfOk, IfSome};
ghost use Rattle.std.specs.Prelude.{count_by, if◌then◌else◌, length, map, position, replicate, sum_by, vec_capacity};
ghost use Rattle.std.specs.List.{flat_map};
ghost use Rattle.sp_rules.specs.Prio.{is_peer};
ghost use Rattle.sp_rules.specs.PrioPeer.{closed, closed_effects, expired, expired_effects, given, given_effects, goes_to, new_peer};
ghost use Rattle.sp_store.specs.Leaving.{leaves};
ghost use Rattle.sp_msg.specs.Masks.{bits};
ghost use Rattle.sp_msg.specs.declared.kept.Kept.{Kept};
ghost use Rattle.sp_prio.specs.Given.{IsGiven, goes_along};
ghost use Rattle.sp_prio.specs.Parcel.{AreBeside};
ghost use Rattle.sp_rules.specs.Store as stores;
ghost use Rattle.sp_rules.specs.Store.{said};
ghost use Rattle.sp_rules.specs.Told.{told};
ghost use Rattle.sp_rules.specs.declared.store.TheConstants.{IDS};

use crate::field::mask_of;
use crate::peer::Peer;
use sp_base::{Memory, NodeId, push_in_room};
use sp_msg::{Body, Effects, Kept, Mask};
use sp_rules::Neighbour;
use sp_store::Leaving;
use std::alloc::Global;

/// A row for each neighbour, with an empty store.
pub fn peers_of(alloc: Global, neighbours: &[Neighbour], capacity: u16) -> Result<Vec<Peer>, Memory>
    ensures { IfOk result (λ peers. peers.items ≡ map (new_peer capacity) neighbours.now) }
{
    let mut peers = Vec::with_capacity(alloc, neighbours.len())?;
    'neighbours: for neighbour in neighbours {
        peers.push(Peer::new(alloc, *neighbour, capacity)?)?;
    }
    Ok(peers)
}

/// The place of a neighbour's row.
pub fn place_of(peers: &[Peer], v: NodeId) -> Option<usize>
    ensures place { result ≡ position (is_peer v.0) peers.now }
    ensures within { IfSome result (λ place. place < length peers.now) }
{
    peers.iter().position(|peer| peer.is(v))
}

/// To how many neighbours a message goes.
pub fn count_to(peers: &[Peer], body: &Body, came: Option<NodeId>) -> usize
    ensures { result ≡ count_by (goes_to body.now came) peers.now }
{
    peers.iter().filter(|peer| peer.goes_to(body, came)).count()
}

/// Puts a copy of a message into the store of each neighbour that it goes to, and tells so. The message itself is one of the copies.
pub fn spread(
    peers: &mut Vec<Peer>,
    kept: Kept,
    came: Option<NodeId>,
    beside: Vec<Kept>,
    out: &mut Effects,
)
    requires beside { AreBeside kept (count_by (goes_to kept.body came) peers.old.items) beside.items (vec_capacity beside) }
    requires stores { All (λ q. q.store.last < 2 ^ 63) peers.old.items }
    requires room { 2 * length peers.old.items ≤ out.old.room }
    ensures peers { peers.new.items ≡ map (given kept came) peers.old.items }
    ensures told { out.new ≡ told out.old (flat_map (given_effects kept came) peers.old.items) }
{
    let mask = mask_of(&kept.body);
    let mut copies = beside;
    push_in_room(&mut copies, kept);
    'peers: for place in 0..peers.len() {
        give(&mut peers[place], &mask, came, &mut copies, out);
    }
}

/// Puts one of these copies into the store of a neighbour, where a message with this mask goes there.
fn give(
    peer: &mut Peer,
    mask: &Mask,
    came: Option<NodeId>,
    copies: &mut Vec<Kept>,
    out: &mut Effects,
)
    requires enough { (if goes_along (bits mask.now) came peer.old then 1 else 0) ≤ length copies.old.items }
    requires last { peer.old.store.last < 2 ^ 63 }
    requires room { 2 ≤ out.old.room }
    ensures given { (kept : Kept) → bits mask.now ≡ said (λ p. bits p.mask) kept.body → copies.old.items ≡ replicate (length copies.old.items) kept
        → IsGiven kept came peer.old peer.new copies.new.items out.old out.new }
    ensures fewer { length copies.new.items + (if goes_along (bits mask.now) came peer.old then 1 else 0) ≡ length copies.old.items }
{
    if !peer.goes_along(mask, came) {
        return;
    }
    if let Some(copy) = copies.pop() {
        peer.give(copy, out);
    }
}

/// How many entries of all rows leave.
pub fn leaving_in(peers: &[Peer], leaving: &Leaving<'_>) -> usize
    requires { length peers.now ≤ IDS }
    ensures count { result ≡ sum_by (λ q. length (stores.leavers (leaves leaving.now) q.store)) peers.now }
    ensures few { result < 2 ^ 32 }
{
    let mut count = 0;
    'peers: for peer in peers {
        count += peer.leaving(leaving);
    }
    count
}

/// How many entries all rows have.
pub fn entries_in(peers: &[Peer]) -> usize
    requires { length peers.now ≤ IDS }
    ensures count { result ≡ sum_by (λ q. length q.store.entries) peers.now }
    ensures few { result < 2 ^ 32 }
{
    let mut count = 0;
    'peers: for peer in peers {
        count += peer.count();
    }
    count
}

/// Takes all entries out of all rows whose expiry is before this time, and tells of each.
pub fn expire_peers(peers: &mut Vec<Peer>, now: u64, out: &mut Effects)
    requires { sum_by (λ q. length (stores.expired_entries q.store now)) peers.old.items ≤ out.old.room }
    ensures peers { peers.new.items ≡ map (λ q. expired q now) peers.old.items }
    ensures told { out.new ≡ told out.old (flat_map (λ q. expired_effects q.peer q.store now) peers.old.items) }
{
    'peers: for place in 0..peers.len() {
        peers[place].expire(now, out);
    }
}

/// Another version of the topology, for each row.
pub fn close_peers(peers: &mut Vec<Peer>, weights: &[u32], removed: &[NodeId], out: &mut Effects)
    requires { sum_by (λ q. length q.store.entries) peers.old.items ≤ out.old.room }
    ensures peers { peers.new.items ≡ map (closed weights.now removed.now) peers.old.items }
    ensures told { out.new ≡ told out.old (flat_map (closed_effects weights.now removed.now) peers.old.items) }
{
    'peers: for place in 0..peers.len() {
        peers[place].close(weights, removed, out);
    }
}
