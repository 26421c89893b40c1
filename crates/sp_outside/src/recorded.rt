// The bytes of a small file in memory, with a record of all calls.
ghost use Rattle.std.specs.Prelude.{◌≡◌, ◌+◌, ◌≤◌, [], drop, false, length, take, true};
ghost use Rattle.sp_outside.specs.declared.keeper.TheConstants.{FILE_BYTES};
ghost use Rattle.sp_outside.specs.Disk.{after_write, bytes_of, still};

use crate::file_bytes::FileBytes;
use crate::keeper::FILE_BYTES;
use crate::keeper_calls::KeeperCall;
use std::alloc::Global;
use std::marker::Model;

/// The bytes that a file began with, and each call since. A contract sees just these; what they leave stands ready.
#[derive(Drop)]
pub struct Recorded<'a> {
    first: &'a [u8],
    calls: Vec<KeeperCall>,
    file: FileBytes,
}

impl<'a> Model for Recorded<'a> {
    ghost use Rattle.std.specs.Prelude.{◌≡◌};
    ghost use Rattle.sp_outside.specs.Disk.{bytes_of, still};
    ghost use Rattle.sp_outside.specs.KeeperRecord.{Record, after_calls};

    ghost Value = { Record };

    ghost view = { λ r. record { first = r.first.now; calls = r.calls.items } };

    ghost invariant = { λ r. r.file ≡ bytes_of (after_calls (still r.first.now) r.calls.items) };
}

impl<'a> Recorded<'a> {
    ghost use Rattle.sp_outside.specs.KeeperRecord.{Adds, after_call, disk_of};

    /// No call yet on these bytes.
    pub fn new(alloc: Global, first: &'a [u8]) -> Self
        requires { length first.now ≤ FILE_BYTES }
        ensures { result ≡ record { first = first.now; calls = [] } }
    {
        Recorded {
            first,
            calls: Vec::new(alloc),
            file: FileBytes::copy(first),
        }
    }

    /// What a read of the whole file gives now.
    pub fn bytes(&self) -> &[u8]
        ensures { result.now ≡ bytes_of (disk_of self.now) }
    {
        self.file.as_slice()
    }

    /// The calls, in order.
    pub fn calls(&self) -> &[KeeperCall]
        ensures { result.now ≡ self.now.calls }
    {
        self.calls.as_slice()
    }

    /// Copies the bytes from this place on, as many as there are and have room, and says how many.
    pub fn read(&self, at: usize, buf: &mut [u8]) -> usize
        ensures bound { result ≤ length buf.new }
        ensures bytes { take result buf.new ≡ take (length buf.new) (drop at (bytes_of (disk_of self.now))) }
    {
        self.file.read(at, buf)
    }

    /// Keeps a call that leaves the bytes as they are, and says whether memory sufficed.
    pub fn keep(&mut self, call: KeeperCall) -> bool
        requires { bytes_of (after_call (disk_of self.old) call) ≡ bytes_of (disk_of self.old) }
        ensures kept { result ≡ true → Adds self.old self.new (after_call (disk_of self.old) call) }
        ensures as_before { result ≡ false → self.new ≡ self.old }
    {
        self.calls.push(call).is_ok()
    }

    /// Writes a piece and keeps that call. Where memory doesn't suffice for it, nothing is written.
    pub fn write(&mut self, alloc: Global, at: u64, piece: &[u8], is_done: bool) -> bool
        requires { at + length piece.now ≤ FILE_BYTES }
        ensures kept { result ≡ true → Adds self.old self.new (after_write (disk_of self.old) at piece.now) }
        ensures as_before { result ≡ false → self.new ≡ self.old }
    {
        let Ok(bytes) = Vec::from_slice(alloc, piece) else {
            return false;
        };
        let call = KeeperCall::Written { at, bytes, is_done };
        let is_kept = self.calls.push(call).is_ok();
        if is_kept {
            self.file.write(at as usize, piece);
        }
        is_kept
    }
}
