// Which entry goes and which is served: the first by the numbers of each source's entries, the second by a pass that tells whose turn it is;
// each is then chosen among one source's entries in one pass.
ghost use Rattle.std.specs.Prelude.{◌≡◌, ℕ, ◌<◌, IsSome, Some, drop, length, map};
ghost use Rattle.std.specs.Option.{option_copied};
ghost use Rattle.sp_rules.specs.Store.{count_of, free, fullest, has_entries, ids, is_flying, victim};
ghost use Rattle.sp_store.specs.Places.{live};
ghost use Rattle.sp_store.specs.Sound.{IsCounted};
ghost use Rattle.sp_store.specs.Wanted.{choice, comes_before, goes_before, next_choice};

use crate::said::{priority, source};
use sp_base::{Cursor, Four};
use sp_rules::{Entry, IDS};

/// Which of a source's entries is wanted: of those the oldest.
#[derive(Clone, Copy, Debug)]
pub enum Wanted {
    LowestPriority,
    HighestPriority,
}

/// The entry that goes. None where there is no entry.
pub fn victim<'a>(slots: &'a [Option<Entry>], counts: &[u32; 256]) -> Option<&'a Entry>
    requires counted { IsCounted (live slots.now) counts.now }
    ensures entry { option_copied result ≡ victim (live slots.now) }
    ensures some { 0 < length (live slots.now) → IsSome result }
{
    let src = fullest(slots, counts);
    chosen(slots, src, Wanted::LowestPriority, &Four::new())
}

/// The entry that is served next, of those that aren't in flight. None where all are.
pub fn next<'a>(
    slots: &'a [Option<Entry>],
    cursor: &Cursor,
    flight: &Four<(u64, u64)>,
) -> Option<&'a Entry>
    ensures { option_copied result ≡ next_choice flight.now (live slots.now) cursor.now }
{
    let active = active(slots, flight);
    match cursor.next(active.as_slice()) {
        Some(src) => chosen(slots, src, Wanted::HighestPriority, flight),
        None => None,
    }
}

/// The source with most entries, the lowest of those that have most.
fn fullest(slots: &[Option<Entry>], counts: &[u32; 256]) -> usize
    requires counted { IsCounted (live slots.now) counts.now }
    ensures source { Some result ≡ fullest (live slots.now) }
    ensures some { 0 < length (live slots.now) → 0 < count_of (live slots.now) result }
{
    let mut most = 0;
    'ids: for id in 1..IDS {
        if counts[id] > counts[most] {
            most = id;
        }
    }
    most
}

/// Which ids are those of sources with entries that aren't in flight.
fn active(slots: &[Option<Entry>], flight: &Four<(u64, u64)>) -> [bool; 256]
    ensures { result ≡ map (has_entries (free flight.now (live slots.now))) ids }
{
    let mut active = [false; IDS];
    'slots: for slot in slots {
        if let Some(entry) = slot {
            let src = source(entry) as usize;
            if !active[src] && !is_flying(flight, entry) {
                active[src] = true;
            }
        }
    }
    active
}

/// The wanted one among a source's entries that aren't in flight. None where the source has none.
fn chosen<'a>(
    slots: &'a [Option<Entry>],
    src: usize,
    wanted: Wanted,
    flight: &Four<(u64, u64)>,
) -> Option<&'a Entry>
    ensures { option_copied result ≡ choice wanted (free flight.now (live slots.now)) src }
{
    let mut best: Option<&Entry> = None;
    'slots: for slot in slots {
        if let Some(entry) = slot {
            if source(entry) as usize == src
                && is_better(wanted, entry, best)
                && !is_flying(flight, entry)
            {
                best = Some(entry);
            }
        }
    }
    best
}

/// Whether an entry goes before the best so far.
fn is_better(wanted: Wanted, entry: &Entry, best: Option<&Entry>) -> bool
    ensures { result ≡ comes_before wanted (Some entry.now) (option_copied best.entry) }
{
    match best {
        None => true,
        Some(other) => goes_before(wanted, entry, other),
    }
}

/// Whether an entry is wanted before another.
fn goes_before(wanted: Wanted, entry: &Entry, other: &Entry) -> bool
    ensures { result ≡ goes_before wanted entry.now other.now }
{
    match wanted {
        Wanted::LowestPriority => priority(entry) < priority(other),
        Wanted::HighestPriority => priority(entry) > priority(other),
    }
}

/// Whether an entry is in flight.
fn is_flying(flight: &Four<(u64, u64)>, entry: &Entry) -> bool
    ensures { result ≡ is_flying flight.now entry.now }
{
    is_flying_from(flight, entry, 0)
}

/// Whether an entry is in flight, by the pairs from this place on.
fn is_flying_from(flight: &Four<(u64, u64)>, entry: &Entry, place: usize) -> bool
    ensures { result ≡ is_flying (drop place flight.now) entry.now }
{
    match flight.get(place) {
        Some(pair) => entry.id == pair.1 || is_flying_from(flight, entry, place + 1),
        None => false,
    }
}
