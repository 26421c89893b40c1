// The messages base + 1 to have of a flow, in order, whatever a message is. All memory is taken at the start.
ghost use Rattle.std.specs.Prelude.{◌≡◌, ◌==◌, ◌+◌, ◌-◌, ◌^◌, ◌<◌, ◌≤◌};
ghost use Rattle.std.specs.Prelude.{◌↔◌, IfOk, OnOk, OnErr, IfErr, IsErr, drop, length, map, option_copied, slice_get, take};
ghost use Rattle.sp_base.specs.Position.{IsPosition, kept, acknowledged, empty_buffer};
ghost use Rattle.sp_base.specs.declared.limits.TheConstants.{MAX_MESSAGES};

use circular_buffer::HeapCircularBuffer;
use sp_base::{Four, MAX_MESSAGES, Memory};
use sp_msg::Kept;
use std::alloc::Global;
use std::marker::Model;

/// The messages of a flow that this node has and that aren't acknowledged.
#[derive(Debug, Drop)]
pub struct FlowBuffer<T> {
    bound: u16,
    base: u64,
    items: HeapCircularBuffer<T>,
}

/// The same, of signed messages.
pub type FlowBuf = FlowBuffer<Kept>;

/// A message was refused: the buffer holds as many as it may.
#[derive(Debug, Drop)]
pub struct Full<T> {
    /// All messages up to this number are acknowledged.
    pub base: u64,
    /// All messages up to this number are here or acknowledged.
    pub have: u64,
    /// The message that was refused.
    pub back: T,
}

impl<T> Model for FlowBuffer<T> {
    ghost use Rattle.std.specs.Prelude.{◌+◌, length};
    ghost use Rattle.sp_base.specs.Position.{Buffer};
    ghost use Rattle.sp_flow.specs.Sound.{IsSound};

    ghost Value = { Buffer T };

    ghost view = { λ b. record { bound = b.bound; at = record { base = b.base; have = b.base + length b.items.items; list = b.items.items } } };

    ghost invariant = { λ b. IsSound b.bound b.base (length b.items.items) b.items.capacity };
}

impl<T: Drop> FlowBuffer<T> {
    /// An empty buffer for at most `bound` messages.
    pub fn new(alloc: Global, bound: u16) -> Result<FlowBuffer<T>, Memory>
        ensures { IfOk result (λ buffer. buffer ≡ empty_buffer bound) }
    {
        Ok(FlowBuffer {
            bound,
            base: 0,
            items: HeapCircularBuffer::with_capacity(alloc, bound as usize)?,
        })
    }

    /// How many messages it may hold.
    pub fn bound(&self) -> u16
        ensures { result ≡ self.now.bound }
    {
        self.bound
    }

    /// The number up to which all messages are acknowledged.
    pub fn base(&self) -> u64
        ensures { result ≡ self.now.at.base }
    {
        self.base
    }

    /// The number up to which all messages are here or acknowledged.
    pub fn have(&self) -> u64
        ensures value { result ≡ self.now.at.have }
        ensures position { IsPosition self.now.at }
        ensures bounded { self.now.at.have ≤ self.now.at.base + self.now.bound }
    {
        self.base + self.items.len() as u64
    }

    /// Takes message have + 1. Where the buffer is full nothing changes, and the message comes back.
    pub fn push(&mut self, message: T) -> Result<(), Full<T>>
        requires { self.old.at.have < 2 ^ 63 - 1 }
        ensures ok { OnOk result (self.new ≡ record { bound = self.old.bound; at = kept self.old.at message }) }
        ensures full { IsErr result ↔ (self.old.at.have - self.old.at.base ≡ self.old.bound) }
        ensures back { IfErr result (λ full. full ≡ record { base = self.old.at.base; have = self.old.at.have; back = message }) }
        ensures err { OnErr result (self.new ≡ self.old) }
    {
        let base = self.base();
        let have = self.have();
        match self.items.try_push_back(message) {
            Ok(()) => Ok(()),
            Err(back) => Err(Full { base, have, back }),
        }
    }

    /// All messages up to this number are acknowledged, and are dropped here.
    pub fn ack(&mut self, seq: u64)
        ensures { self.new ≡ record { bound = self.old.bound; at = acknowledged self.old.at seq } }
    {
        if seq <= self.base {
            return;
        }
        let count = (seq - self.base).min(self.items.len() as u64);
        let left = self.items.len() - count as usize;
        self.items.truncate_front(left);
        self.base = seq;
    }

    /// The first message that isn't acknowledged.
    pub fn first(&self) -> Option<&T>
        ensures { option_copied result ≡ slice_get self.now.at.list 0 }
    {
        self.items.get(0)
    }

    /// The first messages after this number, at most four.
    pub fn messages_after(&self, number: u64) -> Four<&T>
        ensures { map (λ message. message.now) result ≡ take MAX_MESSAGES (drop (number - self.now.at.base) self.now.at.list) }
    {
        self.from(number.saturating_sub(self.base) as usize, MAX_MESSAGES)
    }

    /// The first messages from this place on, counted from 0, at most so many.
    fn from(&self, place: usize, room: usize) -> Four<&T>
        requires { room ≤ MAX_MESSAGES }
        ensures messages { map (λ message. message.now) result ≡ take room (drop place self.now.at.list) }
        ensures few { length result ≤ room }
    {
        if room == 0 {
            return Four::new();
        }
        let Some(message) = self.items.get(place) else {
            return Four::new();
        };
        self.from(place + 1, room - 1).led_by(message)
    }
}
