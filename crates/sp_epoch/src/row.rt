// One node's key state, over a file of its own in memory.
ghost use Rattle.std.specs.Prelude.{◌≡◌, ◌<◌, ◌≤◌, ◌^◌, IfErr, IfOk, OnErr, OnOk};
ghost use Rattle.sp_keystate.specs.States.{first_numbers};
ghost use Rattle.sp_epoch.specs.Numbers.{after_more, after_start, next_bound, started_at};
ghost use Rattle.sp_epoch.specs.declared.refused.EpochRefused.TheVariants as refusals;

use crate::{EpochRefused, Started};
use sp_keystate::{KeyState, RESERVED, format};
use sp_outside::MemoryKeeper;
use std::marker::Model;

/// A file in memory, and what it stands for.
#[derive(Drop)]
pub(crate) struct Row {
    keeper: MemoryKeeper,
    state: KeyState,
}

impl Model for Row {
    ghost use Rattle.sp_keystate.specs.declared.numbers.Numbers.{Numbers};
    ghost use Rattle.sp_keystate.specs.States.{numbers_of};
    ghost use Rattle.sp_epoch.specs.Stands.{IsRow};

    ghost Value = { Numbers };

    ghost view = { λ r. numbers_of r.state };

    ghost invariant = { λ r. IsRow r.keeper.file r.state };
}

impl Row {
    /// The key state of a node that never started.
    pub fn new() -> Self
        ensures { result ≡ first_numbers }
    {
        let mut keeper = MemoryKeeper::new();
        match format(&mut keeper) {
            Ok(state) => Row { keeper, state },
            Err(_) => unreachable!(),
        }
    }

    /// How many changes led to it.
    pub fn serial(&self) -> u64
        ensures { result ≡ self.now.serial }
    {
        self.state.serial
    }

    /// What `start` would answer.
    pub fn next(&self, total: u64) -> Result<Started, EpochRefused>
        requires { self.now.serial < 2 ^ 62 }
        ensures given { OnOk result (self.now.bound < total) }
        ensures gives { IfOk result (λ started. started ≡ started_at total self.now) }
        ensures refused { OnErr result (total ≤ self.now.bound) }
        ensures exhausted { IfErr result (λ refused. refused ≡ refusals.Exhausted self.now.bound) }
    {
        let first = self.state.bound;
        if first >= total {
            return Err(EpochRefused::Exhausted { bound: first });
        }
        Ok(Started {
            boot: self.state.boot + 1,
            index: first,
            bound: if total - first > RESERVED {
                first + RESERVED
            } else {
                total
            },
        })
    }

    /// Takes the next boot and reserves indexes, where one of this total isn't reserved yet.
    pub fn start(&mut self, total: u64) -> Result<Started, EpochRefused>
        requires { self.old.serial < 2 ^ 62 }
        ensures given { OnOk result ((self.old.bound < total) × (self.new ≡ after_start total self.old)) }
        ensures gives { IfOk result (λ started. started ≡ started_at total self.old) }
        ensures refused { OnErr result ((total ≤ self.old.bound) × (self.new ≡ self.old)) }
        ensures exhausted { IfErr result (λ refused. refused ≡ refusals.Exhausted self.old.bound) }
    {
        let index = self.state.bound;
        if index >= total {
            return Err(EpochRefused::Exhausted { bound: index });
        }
        let Ok(boot) = self.state.next_boot(&mut self.keeper) else {
            unreachable!()
        };
        let bound = self.more(total);
        Ok(Started { boot, index, bound })
    }

    /// Reserves indexes, and gives the new bound.
    pub fn more(&mut self, total: u64) -> u64
        requires serial { self.old.serial < 2 ^ 63 }
        requires left { self.old.bound < total }
        ensures state { self.new ≡ after_more total self.old }
        ensures bound { result ≡ next_bound total self.old }
    {
        match self.state.reserve(&mut self.keeper, RESERVED, total) {
            Ok(bound) => bound,
            Err(_) => unreachable!(),
        }
    }
}
