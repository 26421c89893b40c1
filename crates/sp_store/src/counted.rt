// Places with the number of entries of each source beside them: an entry is counted where it comes and where it goes.
ghost use Rattle.std.specs.Prelude.{◌≡◌, ◌+◌, ◌<◌, ◌≤◌, ◌^◌, length};
ghost use Rattle.sp_rules.specs.Store.{arriving, entry_in, removed};
ghost use Rattle.sp_store.specs.Sound.{IsCounted};

use crate::places::Places;
use crate::said::{source, source_of};
use sp_msg::Kept;
use sp_rules::{Entry, IDS};

/// Puts a message in under the next id, and tells the id.
pub fn push(places: &mut Places, counts: &mut [u32; 256], kept: Kept) -> u64
    requires few { length places.old.entries ≤ places.old.capacity }
    requires last { places.old.last < 2 ^ 63 }
    requires counted { IsCounted places.old.entries counts.old }
    ensures id { result ≡ places.old.last + 1 }
    ensures store { places.new ≡ record { capacity = places.old.capacity; last = places.old.last + 1; entries = arriving places.old kept } }
    ensures counted { IsCounted places.new.entries counts.new }
{
    let _capacity = places.capacity();
    let src = source_of(&kept) as usize;
    let id = places.push(kept);
    counts[src] += 1;
    id
}

/// Takes out the entry of this id. None exactly where there is none.
pub fn remove(places: &mut Places, counts: &mut [u32; 256], id: u64) -> Option<Entry>
    requires counted { IsCounted places.old.entries counts.old }
    ensures entry { result ≡ entry_in places.old id }
    ensures store { places.new ≡ removed places.old id }
    ensures counted { IsCounted places.new.entries counts.new }
{
    match places.remove(id) {
        Some(entry) => {
            counts[source(&entry) as usize] -= 1;
            Some(entry)
        }
        None => None,
    }
}
