// A small file that outlives the daemon.
ghost use Rattle.std.specs.Prelude.{◌≡◌, ◌+◌, ◌≤◌, ℕ, List, Option, length};
ghost use Rattle.std.specs.Io.{ReadsAtMost};
ghost use Rattle.sp_outside.specs.declared.keeper.TheConstants.{FILE_BYTES};
ghost use Rattle.sp_outside.specs.Causes.{HasCause};
ghost use Rattle.sp_outside.specs.Disk.{Disk};
ghost use Rattle.sp_outside.specs.Moments.{GivesBytes, LeavesOfWrite, LeavesWithin, Synced, Wrote};

use crate::Failed;

/// How long the file is at most, in bytes.
pub const FILE_BYTES: usize = 128;

/// A file of at most `FILE_BYTES` bytes.
pub trait Keeper {
    /// Its bytes, and what a crash now may leave of them, where the object tells that.
    ghost disk: { Self → Option Disk };

    /// The same at each moment so far, where the object tells that.
    ghost past: { Self → Option (List Disk) };

    /// How many calls failed.
    ghost faults: { Self → ℕ };

    /// Reads from this place on. It gives fewer bytes than the buffer holds only at the end of the file.
    fn read(&mut self, at: u64, buf: &mut [u8]) -> Result<usize, Failed>
        requires { at + length buf.old ≤ FILE_BYTES }
        ensures bound { ReadsAtMost result buf.new }
        ensures bytes { GivesBytes (disk self.old) at result buf.new }
        ensures as_before { disk self.new ≡ disk self.old }
        ensures moments { LeavesWithin (disk self.old) (past self.old) (past self.new) }
        ensures cause { HasCause (faults self.old) (faults self.new) result };

    /// Writes the whole piece from this place on. A write that begins past the end makes the bytes between 0.
    fn write_at(&mut self, at: u64, bytes: &[u8]) -> Result<(), Failed>
        requires { at + length bytes.now ≤ FILE_BYTES }
        ensures wrote { Wrote (disk self.old) (disk self.new) at bytes.now result }
        ensures moments { LeavesOfWrite (disk self.old) at bytes.now (past self.old) (past self.new) }
        ensures cause { HasCause (faults self.old) (faults self.new) result };

    /// What was written before is on the disk when this returns.
    fn sync(&mut self) -> Result<(), Failed>
        ensures synced { Synced (disk self.old) (disk self.new) result }
        ensures moments { LeavesWithin (disk self.old) (past self.old) (past self.new) }
        ensures cause { HasCause (faults self.old) (faults self.new) result };
}
