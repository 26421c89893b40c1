// Whether an eviction leaves its share.
ghost use Rattle.std.specs.Prelude.{◌≡◌, ◌==◌, ◌/◌, ◌↔◌, IsTrue, length, if◌then◌else◌};
ghost use Rattle.std.specs.List.{list_any};
ghost use Rattle.sp_audit.specs.Shares.{is_first, is_lowest, is_lowest_source, is_most, may_go};
ghost use Rattle.sp_runs.specs.Held.{IsShare, count_held, sources_held};

use sp_rules::IDS;
use std::marker::Model;

/// An entry of a place: its id there, its source, its number and its priority.
#[derive(Clone, Copy, Debug, PartialEq, Eq)]
pub struct Held {
    pub id: u64,
    pub src: u8,
    pub seq: u64,
    pub prio: u8,
}

impl Model for Held {
    ghost use Rattle.sp_runs.specs.Held as held;

    ghost Value = { held.Held };

    ghost view = { λ h. record { id = h.id; src = h.src; seq = h.seq; prio = h.prio } };

    ghost inverse = { λ h. record { id = h.id; src = h.src; seq = h.seq; prio = h.prio } };
}

// ---- what an eviction leaves

/// Whether of a place's entries, one more than its capacity, that of this id goes rightly, so that its source keeps its share.
pub fn is_share(capacity: u16, held: &[Held], id: u64) -> bool
    ensures { IsTrue result ↔ IsShare capacity held.now id }
{
    if held.len() != usize::from(capacity) + 1 {
        return false;
    }
    'entries: for place in 0..held.len() {
        if may_go(capacity, held, &held[..place], &held[place], id) {
            return true;
        }
    }
    false
}

/// Whether the entry, which stands after those before it, may go under this id.
fn may_go(capacity: u16, held: &[Held], before: &[Held], entry: &Held, id: u64) -> bool
    ensures { result ≡ may_go capacity held.now before.now entry.now id }
{
    let most = count(held, entry.src);
    entry.id == id
        && is_most(held, most)
        && is_lowest_source(held, most, entry.src)
        && is_lowest(held, entry.src, entry.prio)
        && is_first(before, entry.src, entry.prio)
        && share_of(capacity, held) <= most.saturating_sub(1)
}

/// The share of each source of these entries.
fn share_of(capacity: u16, held: &[Held]) -> usize
    ensures { result ≡ capacity / length (sources_held held.now) }
{
    match sources(held) {
        0 => 0,
        sources => usize::from(capacity) / sources,
    }
}

/// How many sources they have.
fn sources(held: &[Held]) -> usize
    ensures { result ≡ length (sources_held held.now) }
{
    let mut sources = 0usize;
    'ids: for id in 0..IDS {
        sources += one_if(held, id as u8);
    }
    sources
}

/// 1 where an entry is of this source, else 0.
fn one_if(held: &[Held], src: u8) -> usize
    ensures { result ≡ (if list_any (λ h. h.src == src) held.now then 1 else 0) }
{
    if has_source(held, src) { 1 } else { 0 }
}

// ---- tests

/// How many entries of this source are among them.
fn count(held: &[Held], src: u8) -> usize
    ensures { result ≡ count_held held.now src }
{
    held.iter().filter(|h| h.src == src).count()
}

/// Whether one of them is of this source.
fn has_source(held: &[Held], src: u8) -> bool
    ensures { result ≡ list_any (λ h. h.src == src) held.now }
{
    held.iter().any(|h| h.src == src)
}

fn is_most(held: &[Held], most: usize) -> bool
    ensures { result ≡ is_most held.now most }
{
    held.iter().all(|h| count(held, h.src) <= most)
}

fn is_lowest_source(held: &[Held], most: usize, src: u8) -> bool
    ensures { result ≡ is_lowest_source held.now most src }
{
    held.iter()
        .all(|h| count(held, h.src) != most || src <= h.src)
}

fn is_lowest(held: &[Held], src: u8, prio: u8) -> bool
    ensures { result ≡ is_lowest held.now src prio }
{
    held.iter().all(|h| h.src != src || prio <= h.prio)
}

fn is_first(before: &[Held], src: u8, prio: u8) -> bool
    ensures { result ≡ is_first before.now src prio }
{
    before.iter().all(|h| h.src != src || prio < h.prio)
}
