// What goes into the store of a place and what leaves it, each with the effect that tells it.
ghost use Rattle.std.specs.Prelude.{◌≡◌, ◌<◌, ◌≤◌, ◌+◌, ◌^◌, ◌++◌, Some, length, replicate};
ghost use Rattle.sp_rules.specs.Prio.{delivered};
ghost use Rattle.sp_rules.specs.PrioPeer.{expired_effects, gone, gone_effects, put_effects, stored};
ghost use Rattle.sp_rules.specs.Store.{entry_in, expired_entries, leavers, less_expired, less_leavers, put, removed};
ghost use Rattle.sp_store.specs.Leaving.{leaves};
ghost use Rattle.sp_prio.specs.Answers.{evicted_in};
ghost use Rattle.sp_rules.specs.Told.{told};

use sp_msg::{Body, Effect, Effects, Kept, Why};
use sp_rules::{Entry, Put};
use sp_store::{Leaving, Store};

/// Puts a message into the store of a place, and tells so, and which entry goes for it.
pub fn put(store: &mut Store, place: u8, kept: Kept, out: &mut Effects)
    requires last { store.old.last < 2 ^ 63 }
    requires room { 2 ≤ out.old.room }
    ensures store { store.new ≡ put store.old kept }
    ensures told { out.new ≡ told out.old (put_effects place store.old kept) }
{
    tell_stored(place, store.last() + 1, &kept.body, out);
    let answer = store.put(kept);
    tell_evicted(place, &answer, out);
}

/// Delivers a message to the clients of this node: tells its payload, and puts the copy into the inbox, which is place 0.
pub fn deliver(inbox: &mut Store, kept: Kept, mut beside: Vec<Kept>, out: &mut Effects)
    requires beside { beside.items ≡ replicate 1 kept }
    requires last { inbox.old.last < 2 ^ 63 }
    requires room { 3 ≤ out.old.room }
    ensures inbox { inbox.new ≡ put inbox.old kept }
    ensures told { out.new ≡ told out.old (delivered kept.body ++ put_effects 0 inbox.old kept) }
{
    tell_delivered(kept.body, out);
    if let Some(copy) = beside.pop() {
        put(inbox, 0, copy, out);
    }
}

/// Tells that a message was delivered, with its payload.
fn tell_delivered(body: Body, out: &mut Effects)
    requires { 1 ≤ out.old.room }
    ensures { out.new ≡ told out.old (delivered body) }
{
    if let Body::Prio(prio) = body {
        out.push(Effect::DeliveredPrio {
            src: prio.src,
            seq: prio.seq,
            payload: prio.payload,
        });
    }
}

/// Tells that a message went into a place.
fn tell_stored(place: u8, id: u64, body: &Body, out: &mut Effects)
    requires { 1 ≤ out.old.room }
    ensures { out.new ≡ told out.old (stored place id body.now) }
{
    if let Body::Prio(prio) = body {
        out.push(Effect::Stored {
            place,
            id,
            src: prio.src,
            seq: prio.seq,
            prio: prio.prio,
        });
    }
}

/// Tells that an entry was evicted, where one was.
fn tell_evicted(place: u8, answer: &Put, out: &mut Effects)
    requires { 1 ≤ out.old.room }
    ensures { out.new ≡ told out.old (gone place Why.Evicted (evicted_in answer.now)) }
{
    if let Put::StoredAfter { evicted, .. } = answer {
        tell_gone(place, evicted, Why::Evicted, out);
    }
}

/// Tells that an entry left a place.
pub fn tell_gone(place: u8, entry: &Entry, why: Why, out: &mut Effects)
    requires { 1 ≤ out.old.room }
    ensures { out.new ≡ told out.old (gone place why (Some entry.now)) }
{
    out.push(Effect::Gone {
        place,
        id: entry.id,
        why,
    });
}

/// Takes the entry of this id out, where it is there, and tells that it was acknowledged.
pub fn leave(store: &mut Store, place: u8, id: u64, out: &mut Effects)
    requires { 1 ≤ out.old.room }
    ensures store { store.new ≡ removed store.old id }
    ensures told { out.new ≡ told out.old (gone place Why.Acked (entry_in store.old id)) }
    ensures room { out.old.room ≤ out.new.room + 1 }
{
    if let Some(entry) = store.remove(id) {
        tell_gone(place, &entry, Why::Acked, out);
    }
}

/// Takes out all entries that leave, the oldest first, and tells of each.
pub fn leave_all(store: &mut Store, place: u8, leaving: &Leaving<'_>, why: Why, out: &mut Effects)
    requires { length (leavers (leaves leaving.now) store.old) ≤ out.old.room }
    ensures store { store.new ≡ less_leavers (leaves leaving.now) store.old }
    ensures told { out.new ≡ told out.old (gone_effects place why (leavers (leaves leaving.now) store.old)) }
{
    'entries: while let Some(entry) = store.leave(leaving) {
        out.push(Effect::Gone {
            place,
            id: entry.id,
            why,
        });
    }
}

/// Takes out all entries whose expiry is before this time, the oldest first, and tells of each.
pub fn expire(store: &mut Store, place: u8, now: u64, out: &mut Effects)
    requires { length (expired_entries store.old now) ≤ out.old.room }
    ensures store { store.new ≡ less_expired store.old now }
    ensures told { out.new ≡ told out.old (expired_effects place store.old now) }
{
    leave_all(store, place, &Leaving::Expired { now }, Why::Expired, out);
}

/// How many entries there are.
#[tactic(auto, using(crate::proofs::TellLemmas::all_counted))]
pub fn count(store: &Store) -> usize
    ensures count { result ≡ length store.now.entries }
    ensures few { result < 2 ^ 16 }
{
    store.leaving(&Leaving::All)
}
