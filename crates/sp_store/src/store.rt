// A store: its entries in order of arrival, and how many each source has. All memory is taken at the start.
ghost use Rattle.std.specs.Prelude.{◌≡◌, ◌+◌, ◌<◌, ◌≤◌, ◌^◌, IfOk, filter, find, length, slice_get};
ghost use Rattle.std.specs.Option.{option_copied};
ghost use Rattle.sp_rules.specs.Store.{empty_store, entry_in, leaver, leavers, less_leaver, less_oldest, next_besides, oldest, put, put_answer, removed};
ghost use Rattle.sp_rules.specs.Store.{victim, without};
ghost use Rattle.sp_store.specs.Leaving.{leaves};
ghost use Rattle.sp_store.specs.Places.{live};
ghost use Rattle.sp_store.specs.Sound.{IsCounted};

use crate::places::Places;
use crate::{Leaving, choice, counted};
use sp_base::{Cursor, Four, Memory};
use sp_msg::Kept;
use sp_rules::{Entry, IDS, Put};
use std::alloc::Global;
use std::marker::Model;

/// Priority messages in order of arrival, at most so many.
#[derive(Debug, Drop)]
pub struct Store {
    places: Places,
    counts: [u32; 256],
}

impl Model for Store {
    ghost use Rattle.sp_rules.specs.Store.{Store};
    ghost use Rattle.sp_store.specs.Sound.{IsSound};

    ghost Value = { Store };

    ghost view = { λ s. s.places };

    ghost invariant = { λ s. IsSound s.places s.counts };
}

impl Store {
    /// An empty store for at most `capacity` entries.
    pub fn new(alloc: Global, capacity: u16) -> Result<Store, Memory>
        ensures { IfOk result (λ store. store ≡ empty_store capacity) }
    {
        Ok(Store {
            places: Places::new(alloc, capacity)?,
            counts: [0; IDS],
        })
    }

    /// Puts a message in, under the next id. Where the store was full one entry goes, and the new one counts: of the source with most
    /// entries, the lowest id of those; of its entries the one of lowest priority, and the oldest of those.
    pub fn put(&mut self, kept: Kept) -> Put
        requires { self.old.last < 2 ^ 63 }
        ensures answer { result ≡ put_answer self.old kept }
        ensures store { self.new ≡ put self.old kept }
    {
        let id = counted::push(&mut self.places, &mut self.counts, kept);
        if self.places.len() <= self.places.capacity() as usize {
            return Put::Stored { id };
        }
        match evict(&mut self.places, &mut self.counts) {
            Some(evicted) => Put::StoredAfter { id, evicted },
            None => Put::Stored { id },
        }
    }

    /// The entry that is served next, of those that aren't in flight: of the source that comes after the last one in the cycle of ids, the
    /// one of highest priority, and the oldest of those. None exactly where every entry's id is in flight.
    pub fn next_besides(&self, cursor: &Cursor, flight: &Four<(u64, u64)>) -> Option<&Entry>
        ensures { option_copied result ≡ next_besides self.now flight.now cursor.now }
    {
        choice::next(self.places.slots(), cursor, flight)
    }

    /// The entry of this id. None exactly where there is none.
    pub fn get(&self, id: u64) -> Option<&Entry>
        ensures { option_copied result ≡ entry_in self.now id }
    {
        self.places.get(id)
    }

    /// Takes out the entry of this id. None exactly where there is none.
    pub fn remove(&mut self, id: u64) -> Option<Entry>
        ensures entry { result ≡ entry_in self.old id }
        ensures store { self.new ≡ removed self.old id }
    {
        counted::remove(&mut self.places, &mut self.counts, id)
    }

    /// Takes out the oldest entry. None exactly where the store is empty.
    pub fn oldest(&mut self) -> Option<Entry>
        ensures entry { result ≡ oldest self.old }
        ensures store { self.new ≡ less_oldest self.old }
    {
        let first = nth(self.places.slots(), 0)?.id;
        self.remove(first)
    }

    /// Takes out the oldest entry that leaves. None exactly where none does.
    pub fn leave(&mut self, leaving: &Leaving<'_>) -> Option<Entry>
        ensures entry { result ≡ leaver (leaves leaving.now) self.old }
        ensures store { self.new ≡ less_leaver (leaves leaving.now) self.old }
    {
        let gone = first_of(self.places.slots(), leaving)?.id;
        self.remove(gone)
    }

    /// How many entries leave.
    pub fn leaving(&self, leaving: &Leaving<'_>) -> usize
        ensures count { result ≡ length (leavers (leaves leaving.now) self.now) }
        ensures few { result < 2 ^ 16 }
    {
        let _capacity = self.places.capacity();
        count_of(self.places.slots(), leaving)
    }

    /// How many entries there are.
    pub fn len(&self) -> usize
        ensures count { result ≡ length self.now.entries }
        ensures bounded { length self.now.entries ≤ self.now.capacity }
    {
        self.places.len()
    }

    /// The id that was given last, 0 before the first.
    pub fn last(&self) -> u64
        ensures { result ≡ self.now.last }
    {
        self.places.last()
    }
}

/// Takes out the entry that goes. None exactly where there is no entry.
fn evict(places: &mut Places, counts: &mut [u32; 256]) -> Option<Entry>
    requires counted { IsCounted places.old.entries counts.old }
    ensures entry { result ≡ victim places.old.entries }
    ensures store { places.new ≡ record {
      capacity = places.old.capacity;
      last = places.old.last;
      entries = without (victim places.old.entries) places.old.entries;
    } }
    ensures counted { IsCounted places.new.entries counts.new }
    ensures fewer { 0 < length places.old.entries → length places.new.entries + 1 ≡ length places.old.entries }
{
    match choice::victim(places.slots(), counts) {
        Some(entry) => {
            let id = entry.id;
            counted::remove(places, counts, id)
        }
        None => None,
    }
}

/// The entry in this place from the oldest on, counted from 0. None exactly where there are no more than so many.
fn nth(slots: &[Option<Entry>], place: usize) -> Option<&Entry>
    ensures { option_copied result ≡ slice_get (live slots.now) place }
{
    let mut left = place;
    'slots: for slot in slots {
        if let Some(entry) = slot {
            if left == 0 {
                return Some(entry);
            }
            left -= 1;
        }
    }
    None
}

/// The oldest entry that leaves.
fn first_of<'a>(slots: &'a [Option<Entry>], leaving: &Leaving<'_>) -> Option<&'a Entry>
    ensures { option_copied result ≡ find (leaves leaving.now) (live slots.now) }
{
    'slots: for slot in slots {
        if let Some(entry) = slot {
            if leaving.has(entry) {
                return Some(entry);
            }
        }
    }
    None
}

/// How many of these entries leave.
fn count_of(slots: &[Option<Entry>], leaving: &Leaving<'_>) -> usize
    ensures count { result ≡ length (filter (leaves leaving.now) (live slots.now)) }
    ensures within { result ≤ length (live slots.now) }
{
    let mut count = 0usize;
    'slots: for slot in slots {
        if let Some(entry) = slot {
            if leaving.has(entry) {
                count += 1;
            }
        }
    }
    count
}
