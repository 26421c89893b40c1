// The bytes of a small file in memory.
ghost use Rattle.std.specs.Prelude.{◌≡◌, ◌+◌, ◌<◌, ◌≤◌, List, ℕ, [], drop, length, slice_index, take};
ghost use Rattle.sp_outside.specs.declared.keeper.TheConstants.{FILE_BYTES};
ghost use Rattle.sp_outside.specs.Disk.{patched};

use crate::keeper::FILE_BYTES;
use std::marker::Model;

/// At most `FILE_BYTES` bytes. A contract sees them as a list.
#[derive(Drop)]
pub struct FileBytes {
    bytes: [u8; FILE_BYTES],
    len: usize,
}

impl Model for FileBytes {
    ghost Value = { List ℕ };

    ghost view = { λ f. take f.len f.bytes };

    ghost invariant = { λ f. f.len ≤ FILE_BYTES };
}

impl FileBytes {
    pub fn new() -> Self
        ensures { result ≡ [] }
    {
        FileBytes {
            bytes: [0; FILE_BYTES],
            len: 0,
        }
    }

    /// A copy of these bytes.
    pub fn copy(bytes: &[u8]) -> Self
        requires { length bytes.now ≤ FILE_BYTES }
        ensures { result ≡ bytes.now }
    {
        let mut file = [0; FILE_BYTES];
        file[..bytes.len()].copy_from_slice(bytes);
        FileBytes {
            bytes: file,
            len: bytes.len(),
        }
    }

    pub fn as_slice(&self) -> &[u8]
        ensures bytes { result.now ≡ self.now }
        ensures bound { length result.now ≤ FILE_BYTES }
    {
        &self.bytes[..self.len]
    }

    /// Copies the bytes from this place on, as many as there are and have room, and says how many.
    pub fn read(&self, at: usize, buf: &mut [u8]) -> usize
        ensures bound { result ≤ length buf.new }
        ensures bytes { take result buf.new ≡ take (length buf.new) (drop at self.now) }
    {
        let from = at.min(self.len);
        let count = (self.len - from).min(buf.len());
        buf[..count].copy_from_slice(&self.bytes[from..from + count]);
        count
    }

    /// Writes the whole piece from this place on. What lies between the end and a place beyond it becomes 0.
    pub fn write(&mut self, at: usize, piece: &[u8])
        requires { at + length piece.now ≤ FILE_BYTES }
        ensures { self.new ≡ patched self.old at piece.now }
    {
        if piece.is_empty() {
            return;
        }
        let to = at + piece.len();
        clear(&mut self.bytes, self.len, at);
        self.bytes[at..to].copy_from_slice(piece);
        self.len = self.len.max(to);
    }
}

/// Makes the bytes from one place up to another 0, where it lies beyond.
fn clear(bytes: &mut [u8], from: usize, to: usize)
    requires from { from ≤ length bytes.old }
    requires to { to ≤ length bytes.old }
    ensures before { take from bytes.new ≡ take from bytes.old }
    ensures cleared { (k : ℕ) → from ≤ k → k < to → slice_index bytes.new k ≡ 0 }
{
    if from < to {
        bytes[from..to].fill(0);
    }
}
