// One flow at one node: each call is one of the rules' equations.
ghost use Rattle.std.specs.Prelude.{◌≡◌, ◌==◌, ◌+◌, ◌&&◌, ◌<◌, ◌≤◌, true, false, length, map, option_copied, slice_get};
ghost use Rattle.sp_base.specs.declared.limits.TheConstants.{MAX_SEQ};
ghost use Rattle.sp_rules.specs.Flow.{acknowledged_by, after_take, concluded, ended, ends, is_flow, is_full, no_flow, number_said, pushed, received};
ghost use Rattle.sp_rules.specs.Rel.{is_due, messages_after};
ghost use Rattle.sp_rules.specs.Told.{told};
ghost use Rattle.sp_rel.specs.Changes.{CanChange, changed};
ghost use Rattle.sp_rel.specs.Fates.{ended_row, is_ended, row_after};
ghost use Rattle.sp_rel.specs.Rows.{IsSeated, with_state};

use crate::change::Change;
use crate::fate::{Fate, ending};
use crate::held::Held;
use crate::seat::Seat;
use sp_base::{Bytes, Flow, Four, NodeId};
use sp_msg::{Body, Effects, Kept};
use sp_rules::FlowKind;
use std::marker::Model;
use std::mem::size_of;

/// A flow at a node.
#[derive(Debug, Drop)]
pub struct FlowRow {
    me: NodeId,
    bound: u16,
    flow: Flow,
    held: Held,
    /// It ended here, at its destination: it isn't active, and messages may still wait for its clients.
    ended: bool,
    /// The acknowledgement that raised base last.
    ack: Option<Kept>,
}

/// How many bytes a row takes in its table, beside the messages that it holds.
pub const ROW_BYTES: usize = size_of::<FlowRow>();

const _: () = prove!(ROW_BYTES <= 256);

/// The numbers of a flow at a node.
#[derive(Clone, Copy, Debug, PartialEq, Eq)]
pub struct Numbers {
    pub active: bool,
    pub base: u64,
    pub have: u64,
    /// How many messages wait for the clients of the destination.
    pub waiting: usize,
}

impl Model for FlowRow {
    ghost use Rattle.sp_rel.specs.Rows.{RowState};
    ghost use Rattle.sp_rel.specs.Sound.{Fits, HasEnded, row_of};

    ghost Value = { RowState };

    ghost view = { λ r. row_of r.me r.bound r.flow r.held r.ended r.ack };

    ghost invariant = { λ r. Fits r.me r.bound r.flow r.held × HasEnded r.held r.ended };
}

impl FlowRow {
    /// The flow before its first message. It holds no memory of messages.
    pub fn new(me: NodeId, bound: u16, flow: Flow) -> FlowRow
        ensures { result ≡ record { me = me; bound = bound; state = no_flow flow } }
    {
        FlowRow {
            me,
            bound,
            flow,
            held: Held::Idle,
            ended: false,
            ack: None,
        }
    }

    /// Its ends.
    pub fn flow(&self) -> Flow
        ensures { result ≡ ends self.now.state }
    {
        self.flow
    }

    /// Whether it is the row of this flow.
    pub fn is_of(&self, flow: Flow) -> bool
        ensures { result ≡ is_flow flow self.now.state }
    {
        self.flow.src.0 == flow.src.0 && self.flow.dst.0 == flow.dst.0
    }

    /// Whether a message or an acknowledgement of it came.
    pub fn is_active(&self) -> bool
        ensures { result ≡ self.now.state.active }
    {
        match &self.held {
            Held::Idle => false,
            _ => !self.ended,
        }
    }

    /// Where the flow stands.
    pub fn numbers(&self) -> Numbers
        ensures active { result.active ≡ self.now.state.active }
        ensures base { result.base ≡ self.now.state.at.base }
        ensures have { result.have ≡ self.now.state.at.have }
        ensures waiting { result.waiting ≡ length self.now.state.inbox }
    {
        match &self.held {
            Held::Idle => Numbers {
                active: false,
                base: 0,
                have: 0,
                waiting: 0,
            },
            Held::Relay(buffer) => Numbers {
                active: true,
                base: buffer.base(),
                have: buffer.have(),
                waiting: 0,
            },
            Held::End(inbox) => Numbers {
                active: !self.ended,
                base: inbox.base(),
                have: inbox.have(),
                waiting: inbox.len(),
            },
        }
    }

    /// Whether this node is its destination and owes an acknowledgement.
    pub fn is_due(&self) -> bool
        ensures { result ≡ is_due self.now.me self.now.state }
    {
        let numbers = self.numbers();
        self.flow.dst.0 == self.me.0 && numbers.base < numbers.have
    }

    /// The acknowledgement that raised base last.
    pub fn ack(&self) -> Option<&Kept>
        ensures { option_copied result ≡ self.now.state.ack }
    {
        self.ack.as_ref()
    }

    /// The first message that waits here for its acknowledgement.
    pub fn first(&self) -> Option<&Kept>
        ensures { option_copied result ≡ slice_get self.now.state.at.list 0 }
    {
        match &self.held {
            Held::Relay(buffer) => buffer.first(),
            _ => None,
        }
    }

    /// The first messages after this number that are kept here, at most four.
    pub fn messages_after(&self, number: u64) -> Four<&Kept>
        ensures { map (λ message. message.now) result ≡ messages_after self.now.state.at number }
    {
        match &self.held {
            Held::Relay(buffer) => buffer.messages_after(number),
            _ => Four::new(),
        }
    }

    /// What happened to the flow. Where it wasn't active, it is from now on, with the memory of the seat.
    pub fn change(&mut self, change: Change, seat: Seat)
        requires can { CanChange self.old.me self.old.bound self.old.state change }
        requires seat { IsSeated self.old.me self.old.bound self.old.state seat }
        ensures { self.new ≡ with_state self.old (changed change self.old.state) }
    {
        self.open(seat);
        match change {
            Change::Push(message) => self.push(message),
            Change::Receive(payload) => self.receive(payload),
            Change::Acknowledge(ack) => self.acknowledge(ack),
            Change::Conclude(ack) => self.conclude(ack),
        }
    }

    /// The flow becomes active. Where it is, the seat is dropped; and so where it ended here, since its inbox is still there.
    fn open(&mut self, seat: Seat)
        requires { IsSeated self.old.me self.old.bound self.old.state seat }
        ensures { self.new ≡ with_state self.old (record self.old.state { active = true }) }
    {
        if let Held::Idle = self.held {
            let Seat { held, .. } = seat;
            self.held = held;
        }
        self.ended = false;
    }

    /// Message have + 1 goes to the end of the list.
    fn push(&mut self, message: Kept)
        requires active { self.old.state.active ≡ true }
        requires relay { (self.old.state.dst.0 == self.old.me.0) ≡ false }
        requires room { is_full self.old.bound self.old.state ≡ false }
        requires number { self.old.state.at.have < MAX_SEQ }
        ensures { self.new ≡ with_state self.old (pushed self.old.state message) }
    {
        match &mut self.held {
            Held::Relay(buffer) => match buffer.push(message) {
                Ok(()) => {}
                Err(_) => unreachable!(),
            },
            _ => unreachable!(),
        }
    }

    /// Message have + 1 is delivered at the destination.
    fn receive(&mut self, payload: Bytes)
        requires active { self.old.state.active ≡ true }
        requires end { (self.old.state.dst.0 == self.old.me.0) ≡ true }
        requires room { (length self.old.state.inbox == self.old.bound) ≡ false }
        requires number { self.old.state.at.have < MAX_SEQ }
        ensures { self.new ≡ with_state self.old (received self.old.state payload) }
    {
        match &mut self.held {
            Held::End(inbox) => inbox.receive(payload),
            _ => unreachable!(),
        }
    }

    /// An acknowledgement came: what it acknowledges is dropped here, and it is kept.
    fn acknowledge(&mut self, ack: Kept)
        requires active { self.old.state.active ≡ true }
        requires relay { (self.old.state.dst.0 == self.old.me.0) ≡ false }
        ensures { self.new ≡ with_state self.old (acknowledged_by self.old.state ack) }
    {
        match &mut self.held {
            Held::Relay(buffer) => buffer.ack(number_said(&ack.body)),
            _ => unreachable!(),
        }
        self.ack = Some(ack);
    }

    /// The destination signed an acknowledgement of all that came, and keeps it.
    fn conclude(&mut self, ack: Kept)
        requires active { self.old.state.active ≡ true }
        requires end { (self.old.state.dst.0 == self.old.me.0) ≡ true }
        requires sound { self.old.state.at.base ≤ self.old.state.at.have }
        ensures { self.new ≡ with_state self.old (concluded self.old.state ack) }
    {
        match &mut self.held {
            Held::End(inbox) => inbox.conclude(),
            _ => unreachable!(),
        }
        self.ack = Some(ack);
    }

    /// The oldest message of the inbox, which leaves it.
    pub fn take(&mut self) -> Option<Bytes>
        ensures taken { result ≡ slice_get self.old.state.inbox 0 }
        ensures rest { self.new ≡ with_state self.old (after_take self.old.state) }
    {
        match &mut self.held {
            Held::End(inbox) => inbox.take(),
            _ => None,
        }
    }

    /// Whether the flow is active and ends where this comes over it.
    pub fn is_ended(&self, fate: &Fate<'_>) -> bool
        ensures { result ≡ is_ended fate.now self.now }
    {
        fate.touches(self.flow) && self.is_active()
    }

    /// Tells that the flow of this kind ends, where it does.
    pub fn tell_end(&self, kind: FlowKind, fate: &Fate<'_>, effects: &mut Effects)
        requires { length (ended_row kind fate.now self.now) ≤ effects.old.room }
        ensures { effects.new ≡ told effects.old (ended_row kind fate.now self.now) }
    {
        if self.is_ended(fate) {
            effects.push(ending(kind, self.flow));
        }
    }

    /// What becomes of the flow.
    pub fn meet(&mut self, fate: &Fate<'_>)
        ensures { self.new ≡ row_after fate.now self.old }
    {
        if !fate.touches(self.flow) {
            return;
        }
        match fate {
            Fate::Restarted(_) => self.restart(),
            Fate::Removed(_) => {
                if self.is_active() {
                    self.end();
                }
            }
        }
    }

    /// It is as before its first message.
    fn restart(&mut self)
        ensures { self.new ≡ with_state self.old (no_flow (ends self.old.state)) }
    {
        self.held = Held::Idle;
        self.ended = false;
        self.ack = None;
    }

    /// It ends: all of it is let go but what waits for a client.
    fn end(&mut self)
        ensures { self.new ≡ with_state self.old (ended self.old.state) }
    {
        match &mut self.held {
            Held::End(inbox) => {
                inbox.end();
                self.ended = true;
            }
            _ => self.held = Held::Idle,
        }
        self.ack = None;
    }
}

/// The number of a message or an acknowledgement, or of their like of K-path flows.
fn number_said(body: &Body) -> u64
    ensures { result ≡ number_said body.now }
{
    match body {
        Body::Rel(rel) => rel.seq,
        Body::Ack(ack) => ack.seq,
        Body::Krel(krel) => krel.seq,
        Body::Kack(kack) => kack.seq,
        _ => 0,
    }
}
