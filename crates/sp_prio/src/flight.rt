// What is in flight to a neighbour: pairs of a link number and the id of an entry, gone through by their places.
ghost use Rattle.std.specs.Prelude.{◌≡◌, ◌<◌, ◌≤◌, ◌+◌, ◌-◌, ◌^◌, [], None, drop, filter, length, map, not};
ghost use Rattle.std.specs.List.{flat_map};
ghost use Rattle.sp_base.specs.declared.limits.TheConstants.{MAX_MESSAGES};
ghost use Rattle.sp_rules.specs.Polls.{as_message};
ghost use Rattle.sp_rules.specs.PrioPeer.{flown, lands, left_effects, less_all, waits};
ghost use Rattle.sp_rules.specs.Told.{told};
ghost use Rattle.sp_prio.specs.Flight.{launched_with};

use crate::field::src_of;
use crate::place::leave;
use sp_base::{Cursor, Four};
use sp_msg::{Effects, Kept};
use sp_rules::Entry;
use sp_store::Store;

/// The link number that was given last, the source that was served last, and what is in flight, in the order of link numbers.
#[derive(Debug, Drop)]
pub struct Flight {
    pub number: u64,
    pub cursor: Cursor,
    pub pairs: Four<(u64, u64)>,
}

impl Flight {
    /// Nothing is in flight, and no link number was given.
    pub fn start() -> Flight
        ensures { result ≡ record { number = 0; cursor = None; pairs = [] } }
    {
        Flight {
            number: 0,
            cursor: Cursor::start(),
            pairs: Four::new(),
        }
    }

    /// The same without the pairs whose entry has left the store.
    pub fn settled(&self, store: &Store) -> Flight
        ensures { result ≡ record self.now { pairs = filter (waits store.now) self.now.pairs } }
    {
        Flight {
            number: self.number,
            cursor: self.cursor,
            pairs: waiting(&self.pairs, store, 0),
        }
    }

    /// This entry goes in flight under the next link number, and its source was served.
    pub fn launched(self, entry: &Entry) -> Flight
        requires number { self.number + 1 < 2 ^ 64 }
        requires room { length self.pairs < MAX_MESSAGES }
        ensures { result ≡ launched_with self entry.now }
    {
        let number = self.number + 1;
        let mut cursor = self.cursor;
        cursor.moved(src_of(&entry.kept.body) as usize);
        Flight {
            number,
            cursor,
            pairs: self.pairs.with((number, entry.id)),
        }
    }
}

/// The pairs from this place on whose entry is still in the store.
fn waiting(pairs: &Four<(u64, u64)>, store: &Store, place: usize) -> Four<(u64, u64)>
    ensures pairs { result ≡ filter (waits store.now) (drop place pairs.now) }
    ensures fewer { length result ≤ length (drop place pairs.now) }
{
    let Some(pair) = pairs.get(place) else {
        return Four::new();
    };
    let rest = waiting(pairs, store, place + 1);
    match store.get(pair.1) {
        Some(_) => rest.led_by(*pair),
        None => rest,
    }
}

/// The messages of the pairs from this place on, each with its link number.
pub fn messages_from<'a>(
    store: &'a Store,
    pairs: &Four<(u64, u64)>,
    place: usize,
) -> Four<(u64, &'a Kept)>
    ensures messages { map (λ p. (p.0, p.1.now)) result ≡ map as_message (flat_map (flown store.now) (drop place pairs.now)) }
    ensures fewer { length result ≤ length (drop place pairs.now) }
{
    let Some(pair) = pairs.get(place) else {
        return Four::new();
    };
    let later = messages_from(store, pairs, place + 1);
    match store.get(pair.1) {
        Some(entry) => later.led_by((pair.0, &entry.kept)),
        None => later,
    }
}

/// The pairs from this place on that a number doesn't acknowledge. The entries of the others leave the store, one after another, each told.
pub fn land_from(
    pairs: &Four<(u64, u64)>,
    place: usize,
    number: u64,
    store: &mut Store,
    peer: u8,
    out: &mut Effects,
) -> Four<(u64, u64)>
    requires { MAX_MESSAGES ≤ out.old.room + place }
    ensures pairs { result ≡ filter (λ pair. not (lands number pair)) (drop place pairs.now) }
    ensures fewer { length result ≤ length (drop place pairs.now) }
    ensures store { store.new ≡ less_all store.old (filter (lands number) (drop place pairs.now)) }
    ensures told { out.new ≡ told out.old (left_effects peer store.old (filter (lands number) (drop place pairs.now))) }
    ensures room { out.old.room ≤ out.new.room + (MAX_MESSAGES - place) }
{
    let Some(pair) = pairs.get(place) else {
        return Four::new();
    };
    if pair.0 > number {
        let rest = land_from(pairs, place + 1, number, store, peer, out);
        return rest.led_by(*pair);
    }
    leave(store, peer, pair.1, out);
    land_from(pairs, place + 1, number, store, peer, out)
}
