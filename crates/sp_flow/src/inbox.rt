// A flow at its destination: what was delivered and not yet taken, at most so many. All memory is taken at the start.
ghost use Rattle.std.specs.Prelude.{◌≡◌, ◌==◌, ◌+◌, ◌<◌, ◌∷◌, ◌++◌, [], false, IfOk, drop, length, slice_get};
ghost use Rattle.sp_base.specs.declared.limits.TheConstants.{MAX_SEQ};
ghost use Rattle.sp_flow.specs.Inboxes.{empty_inbox};

use circular_buffer::HeapCircularBuffer;
use sp_base::{Bytes, Memory};
use std::alloc::Global;
use std::marker::Model;

/// The messages of a flow that were delivered here and that no client took yet, with the flow's numbers.
#[derive(Debug, Drop)]
pub struct Inbox {
    bound: u16,
    base: u64,
    have: u64,
    items: HeapCircularBuffer<Bytes>,
}

impl Model for Inbox {
    ghost use Rattle.std.specs.Prelude.{length};
    ghost use Rattle.sp_flow.specs.Inboxes.{InboxState, IsSoundInbox};

    ghost Value = { InboxState };

    ghost view = { λ i. record { bound = i.bound; base = i.base; have = i.have; items = i.items.items } };

    ghost invariant = { λ i. IsSoundInbox i.bound (length i.items.items) i.items.capacity };
}

impl Inbox {
    /// An empty inbox for at most `bound` messages.
    pub fn new(alloc: Global, bound: u16) -> Result<Inbox, Memory>
        ensures { IfOk result (λ inbox. inbox ≡ empty_inbox bound) }
    {
        Ok(Inbox {
            bound,
            base: 0,
            have: 0,
            items: HeapCircularBuffer::with_capacity(alloc, bound as usize)?,
        })
    }

    /// The number up to which all messages are acknowledged.
    pub fn base(&self) -> u64
        ensures { result ≡ self.now.base }
    {
        self.base
    }

    /// The number up to which all messages were delivered.
    pub fn have(&self) -> u64
        ensures { result ≡ self.now.have }
    {
        self.have
    }

    /// How many messages wait.
    pub fn len(&self) -> usize
        ensures { result ≡ length self.now.items }
    {
        self.items.len()
    }

    /// Message have + 1 is delivered.
    pub fn receive(&mut self, payload: Bytes)
        requires room { (length self.old.items == self.old.bound) ≡ false }
        requires number { self.old.have < MAX_SEQ }
        ensures { self.new ≡ record self.old { have = self.old.have + 1; items = self.old.items ++ payload ∷ [] } }
    {
        self.have += 1;
        let Ok(()) = self.items.try_push_back(payload) else {
            unreachable!()
        };
    }

    /// All that was delivered is acknowledged.
    pub fn conclude(&mut self)
        ensures { self.new ≡ record self.old { base = self.old.have } }
    {
        self.base = self.have;
    }

    /// The flow ended: its numbers are as before its first message. What wasn't taken still waits.
    pub fn end(&mut self)
        ensures { self.new ≡ record self.old { base = 0; have = 0 } }
    {
        self.base = 0;
        self.have = 0;
    }

    /// The oldest message, which leaves.
    pub fn take(&mut self) -> Option<Bytes>
        ensures taken { result ≡ slice_get self.old.items 0 }
        ensures rest { self.new ≡ record self.old { items = drop 1 self.old.items } }
    {
        self.items.pop_front()
    }
}
