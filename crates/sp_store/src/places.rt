// Entries by id, in order of arrival, each found by its id at once. An entry that goes leaves its place empty, so that this costs a look-up;
// where all places are used up, the entries that are left move into a twin of as many. All memory is taken at the start, for both.
ghost use Rattle.std.specs.Prelude.{◌≡◌, ℕ, ◌+◌, ◌<◌, ◌≤◌, ◌^◌, [], ◌∷◌};
ghost use Rattle.std.specs.Prelude.{◌++◌, All, IfOk, None, filter, find, is_some, length, nat_eq};
ghost use Rattle.std.specs.Map.{lookup, set_value};
ghost use Rattle.std.specs.Option.{option_copied};
ghost use Rattle.indexmap.specs.IndexMap.{index_map_len, spare};
ghost use Rattle.sp_rules.specs.Choices.{less_first};
ghost use Rattle.sp_rules.specs.Store.{arriving, empty_store, entry_in, has_id, removed};
ghost use Rattle.sp_store.specs.Places.{Rises, Stands, live, live_of};

use indexmap::IndexMap;
use sp_base::Memory;
use sp_msg::Kept;
use sp_rules::Entry;
use std::alloc::Global;
use std::marker::Model;
use std::mem;

/// How many places there are beside those of the entries that may stay: one is for an entry that arrives, the others may be empty.
/// So the 288 places of the largest store fill the index of a map exactly: one more would double it.
const SPARE_PLACES: usize = 32;

type Map = IndexMap<u64, Option<Entry>>;

/// Entries by id in order of arrival, at most so many and one more.
#[derive(Debug, Drop)]
pub struct Places {
    capacity: u16,
    last: u64,
    count: usize,
    most: usize,
    map: Map,
    twin: Map,
}

impl Model for Places {
    ghost use Rattle.std.specs.Prelude.{◌+◌};
    ghost use Rattle.indexmap.specs.IndexMap.{index_map_len, spare};
    ghost use Rattle.sp_rules.specs.Store.{Store};
    ghost use Rattle.sp_store.specs.Places.{IsPlaced, live_of};

    ghost Value = { Store };

    ghost view = { λ p. record { capacity = p.capacity; last = p.last; entries = live_of p.map.entries } };

    ghost invariant = { λ p. IsPlaced p.capacity p.last p.count p.most p.map.entries (index_map_len p.map + spare p.map) p.twin.entries (spare p.twin) };
}

impl Places {
    /// No entry yet. At most `capacity` may stay.
    pub fn new(alloc: Global, capacity: u16) -> Result<Places, Memory>
        ensures { IfOk result (λ places. places ≡ empty_store capacity) }
    {
        let most = capacity as usize + SPARE_PLACES;
        Ok(Places {
            capacity,
            last: 0,
            count: 0,
            most,
            map: IndexMap::with_capacity(alloc, most)?,
            twin: IndexMap::with_capacity(alloc, most)?,
        })
    }

    /// Puts a message in under the next id, and tells the id.
    pub fn push(&mut self, kept: Kept) -> u64
        requires few { length self.old.entries ≤ self.old.capacity }
        requires last { self.old.last < 2 ^ 63 }
        ensures id { result ≡ self.old.last + 1 }
        ensures store { self.new ≡ record { capacity = self.old.capacity; last = self.old.last + 1; entries = arriving self.old kept } }
    {
        make_room(&mut self.map, &mut self.twin, self.most);
        self.last += 1;
        let id = self.last;
        add(&mut self.map, id, Some(Entry { id, kept }));
        self.count += 1;
        id
    }

    /// The entry of this id. None exactly where there is none.
    pub fn get(&self, id: u64) -> Option<&Entry>
        ensures { option_copied result ≡ entry_in self.now id }
    {
        match self.map.get(&id) {
            Some(slot) => slot.as_ref(),
            None => None,
        }
    }

    /// Takes out the entry of this id. None exactly where there is none.
    pub fn remove(&mut self, id: u64) -> Option<Entry>
        ensures entry { result ≡ entry_in self.old id }
        ensures store { self.new ≡ removed self.old id }
    {
        match take(&mut self.map, id) {
            Some(entry) => {
                self.count -= 1;
                Some(entry)
            }
            None => None,
        }
    }

    /// The places in order, with the empty ones.
    pub fn slots(&self) -> &[Option<Entry>]
        ensures entries { live result.now ≡ self.now.entries }
        ensures rising { Rises 0 self.now.entries }
    {
        self.map.values().as_slice()
    }

    /// How many entries there are.
    pub fn len(&self) -> usize
        ensures { result ≡ length self.now.entries }
    {
        self.count
    }

    /// How many may stay.
    pub fn capacity(&self) -> u16
        ensures { result ≡ self.now.capacity }
    {
        self.capacity
    }

    /// The id that was given last, 0 before the first.
    pub fn last(&self) -> u64
        ensures { result ≡ self.now.last }
    {
        self.last
    }
}

/// One place more, where there is room for it.
fn add(map: &mut Map, id: u64, slot: Option<Entry>)
    requires room { 0 < spare map.old }
    requires fresh { lookup (nat_eq id) map.old.entries ≡ None }
    ensures places { map.new.entries ≡ map.old.entries ++ (id, slot) ∷ [] }
    ensures room { index_map_len map.old + spare map.old ≤ index_map_len map.new + spare map.new }
{
    map.insert(id, slot).unwrap();
}

/// Empties the place of this id, and gives what stood there.
fn take(map: &mut Map, id: u64) -> Option<Entry>
    requires { Stands 0 map.old.entries }
    ensures entry { result ≡ find (has_id id) (live_of map.old.entries) }
    ensures others { live_of map.new.entries ≡ less_first (has_id id) (live_of map.old.entries) }
    ensures places { map.new.entries ≡ set_value (nat_eq id) map.old.entries None }
    ensures room { index_map_len map.new + spare map.new ≡ index_map_len map.old + spare map.old }
{
    match map.get_mut(&id) {
        Some(slot) => slot.take(),
        None => None,
    }
}

/// Room for one entry more: where as many places are used, the entries that are left move into the twin, which takes the map's place.
fn make_room(map: &mut Map, twin: &mut Map, most: usize)
    requires stand { Stands 0 map.old.entries }
    requires few { length (live_of map.old.entries) < most }
    requires room { most ≤ index_map_len map.old + spare map.old }
    requires empty { twin.old.entries ≡ [] }
    requires twin_room { most ≤ spare twin.old }
    ensures entries { live_of map.new.entries ≡ live_of map.old.entries }
    ensures stand { Stands 0 map.new.entries }
    ensures below { (last : ℕ) → All (λ p. p.0 ≤ last) map.old.entries → All (λ p. p.0 ≤ last) map.new.entries }
    ensures one { 0 < spare map.new }
    ensures room { most ≤ index_map_len map.new + spare map.new }
    ensures empty { twin.new.entries ≡ [] }
    ensures twin_room { most ≤ spare twin.new }
{
    if map.len() < most {
        return;
    }
    move_entries(map, twin);
    mem::swap(map, twin);
}

/// Moves the entries of one map into another, and leaves it without any place.
fn move_entries(from: &mut Map, into: &mut Map)
    requires stand { Stands 0 from.old.entries }
    requires empty { into.old.entries ≡ [] }
    requires room { length (live_of from.old.entries) ≤ spare into.old }
    ensures entries { into.new.entries ≡ filter (λ p. is_some p.1) from.old.entries }
    ensures into_room { spare into.old ≤ index_map_len into.new + spare into.new }
    ensures emptied { from.new.entries ≡ [] }
    ensures from_room { index_map_len from.old + spare from.old ≤ spare from.new }
{
    'places: for (id, slot) in from.drain(..) {
        if slot.is_some() {
            add(into, id, slot);
        }
    }
}
