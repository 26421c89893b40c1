// A clock in memory, whose readings are planned.
ghost use Rattle.std.specs.Prelude.{◌≡◌, ◌+◌, ◌-◌, ◌^◌, ◌∷◌, [], get_or, min};
ghost use Rattle.sp_outside.specs.Calls.{Tells};
ghost use Rattle.sp_outside.specs.Readings.{readings_told};

use crate::Clock;

/// A clock that gives the planned readings in turn, and then the last one for ever.
#[derive(Drop)]
pub struct MemoryClock<'a> {
    planned: &'a [u64],
    last: u64,
    count: u64,
}

impl<'a> MemoryClock<'a> {
    /// A clock that stands still.
    pub fn new(now_ms: u64) -> Self
        ensures readings { (result.planned.now ≡ []) × (result.last ≡ now_ms) }
        ensures begins { result.count ≡ 0 }
    {
        MemoryClock {
            planned: &[],
            last: now_ms,
            count: 0,
        }
    }

    /// A clock with these readings, and this one after them.
    pub fn planned(planned: &'a [u64], last: u64) -> Self
        ensures readings { (result.planned.now ≡ planned.now) × (result.last ≡ last) }
        ensures begins { result.count ≡ 0 }
    {
        MemoryClock {
            planned,
            last,
            count: 0,
        }
    }
}

impl Clock for MemoryClock<'_> {
    ghost told = { λ c. readings_told c.planned.now c.last c.count };

    fn now_ms(&mut self) -> u64
        ensures told { Tells (readings_told self.old.planned.now self.old.last self.old.count)
            (readings_told self.new.planned.now self.new.last self.new.count) (result ∷ []) }
        ensures reading { result ≡ get_or self.old.planned.now self.old.count self.old.last }
        ensures counted { self.new.count ≡ min (self.old.count + 1) (2 ^ 64 - 1) }
        ensures plan { (self.new.planned.now ≡ self.old.planned.now) × (self.new.last ≡ self.old.last) }
    {
        let place = self.count as usize;
        self.count = self.count.saturating_add(1);
        self.planned.get(place).copied().unwrap_or(self.last)
    }
}
