// Bytes that come in, piece by piece.
ghost use Rattle.std.specs.Prelude.{◌≡◌, ◌+◌, ◌-◌, ◌^◌, ◌≤◌, ◌↔◌, ℕ, List, Option, Some, IfOk, IsErr, max, min, true};
ghost use Rattle.std.specs.Io.{ReadsAtMost};
ghost use Rattle.std.specs.Io.KnownBytes.{ReadConsumes};
ghost use Rattle.sp_outside.specs.Causes.{HasCause};
ghost use Rattle.sp_outside.specs.Plans.{is_planned};

use crate::Failed;

/// Where input comes from.
pub trait Source {
    /// The bytes that are left, where the object tells them.
    ghost left: { Self → Option (List ℕ) };

    /// How many calls failed.
    ghost faults: { Self → ℕ };

    /// Takes the first bytes of what is left. 0 for a buffer that isn't empty is the end of the input.
    /// A call that fails takes nothing.
    fn read(&mut self, buf: &mut [u8]) -> Result<usize, Failed>
        ensures bound { ReadsAtMost result buf.new }
        ensures bytes { ReadConsumes (left self.old) (left self.new) result buf.new }
        ensures cause { HasCause (faults self.old) (faults self.new) result };
}

/// Input that lies in memory. No call fails.
#[derive(Drop)]
pub struct MemorySource<'a> {
    bytes: &'a [u8],
}

impl<'a> MemorySource<'a> {
    pub fn new(bytes: &'a [u8]) -> Self
        ensures { result.bytes.now ≡ bytes.now }
    {
        MemorySource { bytes }
    }
}

impl Source for MemorySource<'_> {
    ghost left = { λ s. Some s.bytes.now };

    ghost faults = { λ _. 0 };

    fn read(&mut self, buf: &mut [u8]) -> Result<usize, Failed> {
        let count = self.bytes.len().min(buf.len());
        let (piece, rest) = self.bytes.split_at(count);
        buf[..count].copy_from_slice(piece);
        self.bytes = rest;
        Ok(count)
    }
}

/// Input that lies in memory and comes in pieces of a given size. The calls of the given numbers fail, counted from 0.
#[derive(Drop)]
pub struct PlannedSource<'a> {
    bytes: &'a [u8],
    piece: usize,
    failing: &'a [u64],
    calls: u64,
    faults: u64,
}

impl<'a> PlannedSource<'a> {
    /// At most `piece` bytes come in a call, and at least one while there are any.
    pub fn new(bytes: &'a [u8], piece: usize, failing: &'a [u64]) -> Self
        ensures bytes { result.bytes.now ≡ bytes.now }
        ensures piece { result.piece ≡ piece }
        ensures failing { result.failing.now ≡ failing.now }
        ensures begins { (result.calls ≡ 0) × (result.faults ≡ 0) }
    {
        PlannedSource {
            bytes,
            piece,
            failing,
            calls: 0,
            faults: 0,
        }
    }
}

impl Source for PlannedSource<'_> {
    ghost left = { λ s. Some s.bytes.now };

    ghost faults = { λ s. s.faults };

    fn read(&mut self, buf: &mut [u8]) -> Result<usize, Failed>
        ensures bound { ReadsAtMost result buf.new }
        ensures bytes { ReadConsumes (Some self.old.bytes.now) (Some self.new.bytes.now) result buf.new }
        ensures cause { HasCause self.old.faults self.new.faults result }
        ensures fails { IsErr result ↔ (is_planned self.old.failing.now self.old.calls ≡ true) }
        ensures calls { self.new.calls ≡ min (self.old.calls + 1) (2 ^ 64 - 1) }
        ensures plan { (self.new.piece ≡ self.old.piece) × (self.new.failing.now ≡ self.old.failing.now) }
        ensures size { IfOk result (λ count. count ≤ max self.old.piece 1) }
    {
        let fails = self.failing.contains(&self.calls);
        self.calls = self.calls.saturating_add(1);
        if fails {
            self.faults = self.faults.saturating_add(1);
            return Err(Failed);
        }
        let count = self.bytes.len().min(buf.len()).min(self.piece.max(1));
        let (piece, rest) = self.bytes.split_at(count);
        buf[..count].copy_from_slice(piece);
        self.bytes = rest;
        Ok(count)
    }
}
