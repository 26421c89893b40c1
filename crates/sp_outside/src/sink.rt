// Bytes that go out, piece by piece.
ghost use Rattle.std.specs.Prelude.{◌≡◌, ◌+◌, ◌-◌, ◌^◌, ◌≤◌, ℕ, List, [], Option, Some, IfOk, IsErr, max, min, true};
ghost use Rattle.std.specs.Io.{WritesAtMost};
ghost use Rattle.std.specs.Io.KnownBytes.{WriteAppends};
ghost use Rattle.sp_outside.specs.Causes.{HasCause};
ghost use Rattle.sp_outside.specs.Plans.{is_planned};
ghost use Rattle.sp_outside.specs.Streams.{TakesSome};

use crate::Failed;
use std::alloc::Global;

/// Where output goes.
pub trait Sink {
    /// The bytes that it holds, where the object tells them.
    ghost contents: { Self → Option (List ℕ) };

    /// How many calls failed.
    ghost faults: { Self → ℕ };

    /// Appends the first bytes of the piece, at least one where the piece isn't empty, and says how many.
    /// A call that fails appends nothing.
    fn write(&mut self, piece: &[u8]) -> Result<usize, Failed>
        ensures bound { WritesAtMost result piece.now }
        ensures some { TakesSome result piece.now }
        ensures bytes { WriteAppends (contents self.old) (contents self.new) result piece.now }
        ensures cause { HasCause (faults self.old) (faults self.new) result };
}

/// Output that is kept in memory. A call fails only where no memory is left for the piece.
#[derive(Drop)]
pub struct MemorySink {
    bytes: Vec<u8>,
    faults: u64,
}

impl MemorySink {
    pub fn new(alloc: Global) -> Self
        ensures empty { result.bytes.items ≡ [] }
        ensures faultless { result.faults ≡ 0 }
    {
        MemorySink {
            bytes: Vec::new(alloc),
            faults: 0,
        }
    }

    /// What was written.
    pub fn bytes(&self) -> &[u8]
        ensures { result.now ≡ self.now.bytes.items }
    {
        self.bytes.as_slice()
    }
}

impl Sink for MemorySink {
    ghost contents = { λ s. Some s.bytes.items };

    ghost faults = { λ s. s.faults };

    fn write(&mut self, piece: &[u8]) -> Result<usize, Failed> {
        if self.bytes.extend_from_slice(piece).is_err() {
            self.faults = self.faults.saturating_add(1);
            return Err(Failed);
        }
        Ok(piece.len())
    }
}

/// Output that is kept in memory and taken in pieces of a given size. The calls of the given numbers fail, counted from 0.
#[derive(Drop)]
pub struct PlannedSink<'a> {
    bytes: Vec<u8>,
    piece: usize,
    failing: &'a [u64],
    calls: u64,
    faults: u64,
}

impl<'a> PlannedSink<'a> {
    /// At most `piece` bytes are taken in a call, and at least one while there are any.
    pub fn new(alloc: Global, piece: usize, failing: &'a [u64]) -> Self
        ensures empty { result.bytes.items ≡ [] }
        ensures piece { result.piece ≡ piece }
        ensures failing { result.failing.now ≡ failing.now }
        ensures begins { (result.calls ≡ 0) × (result.faults ≡ 0) }
    {
        PlannedSink {
            bytes: Vec::new(alloc),
            piece,
            failing,
            calls: 0,
            faults: 0,
        }
    }

    /// What was written.
    pub fn bytes(&self) -> &[u8]
        ensures { result.now ≡ self.now.bytes.items }
    {
        self.bytes.as_slice()
    }
}

impl Sink for PlannedSink<'_> {
    ghost contents = { λ s. Some s.bytes.items };

    ghost faults = { λ s. s.faults };

    fn write(&mut self, piece: &[u8]) -> Result<usize, Failed>
        ensures bound { WritesAtMost result piece.now }
        ensures some { TakesSome result piece.now }
        ensures bytes { WriteAppends (Some self.old.bytes.items) (Some self.new.bytes.items) result piece.now }
        ensures cause { HasCause self.old.faults self.new.faults result }
        ensures fails { is_planned self.old.failing.now self.old.calls ≡ true → IsErr result }
        ensures calls { self.new.calls ≡ min (self.old.calls + 1) (2 ^ 64 - 1) }
        ensures plan { (self.new.piece ≡ self.old.piece) × (self.new.failing.now ≡ self.old.failing.now) }
        ensures size { IfOk result (λ count. count ≤ max self.old.piece 1) }
    {
        let fails = self.failing.contains(&self.calls);
        self.calls = self.calls.saturating_add(1);
        let count = piece.len().min(self.piece.max(1));
        if fails || self.bytes.extend_from_slice(&piece[..count]).is_err() {
            self.faults = self.faults.saturating_add(1);
            return Err(Failed);
        }
        Ok(count)
    }
}
