// A small file in memory that fails at planned calls, and keeps a record of all its calls.
ghost use Rattle.std.specs.Prelude.{◌≡◌, ◌+◌, ◌-◌, ◌^◌, ◌≤◌, ◌⊎◌, [], IsErr, Some, length, min, true};
ghost use Rattle.std.specs.Io.{ReadsAtMost};
ghost use Rattle.sp_outside.specs.declared.keeper.TheConstants.{FILE_BYTES};
ghost use Rattle.sp_outside.specs.Causes.{HasCause};
ghost use Rattle.sp_outside.specs.Disk.{bytes_of};
ghost use Rattle.sp_outside.specs.KeeperRecord.{disk_of, past_of};
ghost use Rattle.sp_outside.specs.Moments.{GivesBytes, LeavesOfWrite, LeavesWithin, Synced, Wrote};
ghost use Rattle.sp_outside.specs.Plans.{is_planned};

use crate::keeper::FILE_BYTES;
use crate::keeper_calls::{KeeperCall, KeeperPlan};
use crate::memory_wire::is_planned;
use crate::recorded::Recorded;
use crate::{Failed, Keeper};
use std::alloc::Global;

/// A file in memory. A call fails where that is planned, and where no memory is left for the record of it; then it did nothing.
///
/// A planned write that fails writes all its bytes, of which a crash may leave any: no write is sure before a sync. A planned sync
/// that fails does nothing.
#[derive(Drop)]
pub struct PlannedKeeper<'a> {
    alloc: Global,
    plan: KeeperPlan<'a>,
    reads: u64,
    writes: u64,
    syncs: u64,
    faults: u64,
    told: Recorded<'a>,
}

impl<'a> PlannedKeeper<'a> {
    /// A file with these bytes, all of them on the disk, and which calls fail.
    pub fn new(alloc: Global, first: &'a [u8], plan: KeeperPlan<'a>) -> Self
        requires { length first.now ≤ FILE_BYTES }
        ensures told { result.told ≡ record { first = first.now; calls = [] } }
        ensures plan { result.plan ≡ plan.entry }
        ensures begins { (result.reads ≡ 0) × (result.writes ≡ 0) × (result.syncs ≡ 0) }
        ensures faultless { result.faults ≡ 0 }
    {
        PlannedKeeper {
            alloc,
            plan,
            reads: 0,
            writes: 0,
            syncs: 0,
            faults: 0,
            told: Recorded::new(alloc, first),
        }
    }

    /// What a read of the whole file gives now.
    pub fn bytes(&self) -> &[u8]
        ensures { result.now ≡ bytes_of (disk_of self.now.told) }
    {
        self.told.bytes()
    }

    /// The calls that were made, in order.
    pub fn calls(&self) -> &[KeeperCall]
        ensures { result.now ≡ self.now.told.calls }
    {
        self.told.calls()
    }
}

impl Keeper for PlannedKeeper<'_> {
    ghost disk = { λ k. Some (disk_of k.told) };

    ghost past = { λ k. Some (past_of k.told) };

    ghost faults = { λ k. k.faults };

    fn read(&mut self, at: u64, buf: &mut [u8]) -> Result<usize, Failed>
        requires { at + length buf.old ≤ FILE_BYTES }
        ensures bound { ReadsAtMost result buf.new }
        ensures bytes { GivesBytes (Some (disk_of self.old.told)) at result buf.new }
        ensures as_before { Some (disk_of self.new.told) ≡ Some (disk_of self.old.told) }
        ensures moments { LeavesWithin (Some (disk_of self.old.told)) (Some (past_of self.old.told)) (Some (past_of self.new.told)) }
        ensures cause { HasCause self.old.faults self.new.faults result }
        ensures fails { is_planned self.old.plan.reads.now self.old.reads ≡ true → IsErr result }
        ensures only { IsErr result → (is_planned self.old.plan.reads.now self.old.reads ≡ true) ⊎ (self.new.told ≡ self.old.told) }
        ensures counted { self.new.reads ≡ min (self.old.reads + 1) (2 ^ 64 - 1) }
        ensures plan { self.new.plan ≡ self.old.plan }
    {
        let is_done = !is_planned(self.plan.reads, &mut self.reads);
        let len = buf.len();
        if self.told.keep(KeeperCall::Read { at, len, is_done }) && is_done {
            return Ok(self.told.read(at as usize, buf));
        }
        self.faults = self.faults.saturating_add(1);
        Err(Failed)
    }

    fn write_at(&mut self, at: u64, bytes: &[u8]) -> Result<(), Failed>
        requires { at + length bytes.now ≤ FILE_BYTES }
        ensures wrote { Wrote (Some (disk_of self.old.told)) (Some (disk_of self.new.told)) at bytes.now result }
        ensures moments { LeavesOfWrite (Some (disk_of self.old.told)) at bytes.now (Some (past_of self.old.told)) (Some (past_of self.new.told)) }
        ensures cause { HasCause self.old.faults self.new.faults result }
        ensures fails { is_planned self.old.plan.writes.now self.old.writes ≡ true → IsErr result }
        ensures only { IsErr result → (is_planned self.old.plan.writes.now self.old.writes ≡ true) ⊎ (self.new.told ≡ self.old.told) }
        ensures counted { self.new.writes ≡ min (self.old.writes + 1) (2 ^ 64 - 1) }
        ensures plan { self.new.plan ≡ self.old.plan }
    {
        let is_done = !is_planned(self.plan.writes, &mut self.writes);
        if self.told.write(self.alloc, at, bytes, is_done) && is_done {
            return Ok(());
        }
        self.faults = self.faults.saturating_add(1);
        Err(Failed)
    }

    fn sync(&mut self) -> Result<(), Failed>
        ensures synced { Synced (Some (disk_of self.old.told)) (Some (disk_of self.new.told)) result }
        ensures moments { LeavesWithin (Some (disk_of self.old.told)) (Some (past_of self.old.told)) (Some (past_of self.new.told)) }
        ensures cause { HasCause self.old.faults self.new.faults result }
        ensures fails { is_planned self.old.plan.syncs.now self.old.syncs ≡ true → IsErr result }
        ensures only { IsErr result → (is_planned self.old.plan.syncs.now self.old.syncs ≡ true) ⊎ (self.new.told ≡ self.old.told) }
        ensures counted { self.new.syncs ≡ min (self.old.syncs + 1) (2 ^ 64 - 1) }
        ensures plan { self.new.plan ≡ self.old.plan }
    {
        let is_done = !is_planned(self.plan.syncs, &mut self.syncs);
        if self.told.keep(KeeperCall::Synced { is_done }) && is_done {
            return Ok(());
        }
        self.faults = self.faults.saturating_add(1);
        Err(Failed)
    }
}
