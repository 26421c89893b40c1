// A correct node that runs, under its id.
ghost use Rattle.std.specs.Prelude.{◌≡◌, ◌≤◌, IfOk, None as Nothing, OnErr, length};
ghost use Rattle.sp_frame.specs.declared.frame.TheConstants.{MAX_FRAME_BYTES};
ghost use Rattle.sp_node_format.specs.Format.{format_of};
ghost use Rattle.sp_node_format.specs.PolledFrames.{most_signature};
ghost use Rattle.sp_rules.specs.Lives.{held_boot};
ghost use Rattle.sp_rules.specs.Node.{call_refusal, extended};
ghost use Rattle.sp_rules.specs.Steps.{Frame, NodeStep, Poll, replied};
ghost use Rattle.sp_frame.specs.declared.sections.TheConstants.{MOST_OBJECTS};
ghost use Rattle.sp_runs.specs.Lives.{is_short};
ghost use Rattle.sp_world_steps.specs.Asks.{GaveAnswer, MayAsk};
ghost use Rattle.sp_world_steps.specs.Gave.{GaveTaken};

use crate::calls::{
    datagram, krel, poll, prio, publish, rel, take, take_krel, take_prio, tick, weight,
};
use sp_base::{Bytes, Memory, NodeId};
use sp_journal::Entry;
use sp_keystate::LEAST_LEFT;
use sp_node::Node;
use sp_rules::{KSend, PrioSend, Step, Taken};
use sp_schedule_events::Event;
use std::alloc::Global;
use std::marker::Model;

/// A correct node that runs, under its id. A contract sees the node's state.
#[derive(Drop)]
pub struct Member {
    id: NodeId,
    boot: u64,
    node: Node,
}

impl Model for Member {
    ghost use Rattle.std.specs.Prelude.{◌≡◌};
    ghost use Rattle.sp_rules.specs.Node.{NodeState};

    ghost Value = { NodeState };

    ghost view = { λ m. m.node.state };

    ghost use Rattle.sp_world_steps.specs.Members.{IsMember};

    ghost invariant = { λ m. IsMember m.node.state m.id m.boot };
}

impl Member {
    /// The node of this id, in the life of this boot.
    pub fn new(id: NodeId, boot: u64, node: Node) -> Member
        requires me { node.state.fixed.me ≡ id }
        requires boot { node.state.fixed.boot ≡ boot }
        ensures { result ≡ node.state }
    {
        Member { id, boot, node }
    }

    pub fn id(&self) -> NodeId
        ensures { result ≡ self.now.fixed.me }
    {
        self.id
    }

    /// The boot of its life.
    pub fn boot(&self) -> u64
        ensures { result ≡ self.now.fixed.boot }
    {
        self.boot
    }

    pub fn node(&self) -> &Node
        ensures { result.now.state ≡ self.now }
    {
        &self.node
    }

    /// The boot that it holds of a node, 0 where it holds none.
    pub fn held_boot(&self, u: NodeId) -> u64
        ensures { result ≡ held_boot self.now.parts.lives u }
    {
        self.node.held_boot(u)
    }

    /// Whether few of its reserved indexes are left, and not all indexes of its key are reserved.
    pub fn is_short(&self) -> bool
        ensures { result ≡ is_short self.now }
    {
        let (index, bound) = (self.node.index(), self.node.bound());
        bound.saturating_sub(index) < LEAST_LEFT && bound < self.node.total()
    }

    /// It has the indexes below this bound.
    pub fn extend(&mut self, upto: u64)
        requires forward { self.old.signer.bound ≤ upto }
        requires within { upto ≤ self.old.signer.total }
        ensures { self.new ≡ extended self.old upto }
    {
        self.node.extend(upto);
    }

    /// A client, the clock or the administrator asks something.
    pub fn ask(&mut self, alloc: Global, event: &Event, document: &[u8]) -> Result<Entry, Memory>
        requires { MayAsk self.old event.now document.now }
        ensures answered { IfOk result (λ entry. GaveAnswer self.old event.now document.now entry self.new) }
        ensures as_before { OnErr result (self.new ≡ self.old) }
        ensures fixed { self.new.fixed ≡ self.old.fixed }
    {
        call_for(alloc, &mut self.node, event, document)
    }

    /// The next frame to a neighbour.
    pub fn poll(&mut self, alloc: Global, v: NodeId) -> Result<Bytes, Memory>
        requires answered { call_refusal self.old v ≡ Nothing }
        requires short { self.old.fixed.signature_len ≤ most_signature }
        ensures long { IfOk result (λ bytes. length bytes ≤ MAX_FRAME_BYTES) }
        ensures step { IfOk result (λ bytes. NodeStep (format_of self.old.fixed) self.old (Poll v) (replied (Frame bytes)) self.new) }
        ensures as_before { OnErr result (self.new ≡ self.old) }
        ensures fixed { self.new.fixed ≡ self.old.fixed }
    {
        poll(alloc, &mut self.node, v)
    }

    /// A datagram arrives.
    pub fn datagram(
        &mut self,
        alloc: Global,
        u: NodeId,
        bytes: &[u8],
    ) -> Result<Step<Taken>, Memory>
        requires answered { call_refusal self.old u ≡ Nothing }
        ensures step { IfOk result (λ step. GaveTaken self.old u bytes.now step self.new) }
        ensures few { IfOk result (λ step. length step.reply.items ≤ MOST_OBJECTS) }
        ensures as_before { OnErr result (self.new ≡ self.old) }
        ensures fixed { self.new.fixed ≡ self.old.fixed }
    {
        datagram(alloc, &mut self.node, u, bytes)
    }
}

/// A client, the clock or the administrator asks something of a node.
fn call_for(alloc: Global, node: &mut Node, event: &Event, document: &[u8]) -> Result<Entry, Memory>
    requires { MayAsk node.old.state event.now document.now }
    ensures answered { IfOk result (λ entry. GaveAnswer node.old.state event.now document.now entry node.new.state) }
    ensures as_before { OnErr result (node.new.state ≡ node.old.state) }
    ensures fixed { node.new.state.fixed ≡ node.old.state.fixed }
{
    match event {
        Event::Rel { d, payload, .. } => rel(alloc, node, *d, payload.as_slice()),
        Event::Prio {
            d,
            prio: priority,
            expiry,
            paths,
            payload,
            ..
        } => {
            let message = PrioSend {
                dst: *d,
                prio: *priority,
                expiry: *expiry,
                paths: *paths,
                payload: payload.as_slice(),
            };
            prio(alloc, node, &message)
        }
        Event::Krel {
            d,
            paths,
            payload,
            ..
        } => {
            let message = KSend {
                dst: *d,
                paths: *paths,
                payload: payload.as_slice(),
            };
            krel(alloc, node, &message)
        }
        Event::Take { s, .. } => Ok(take(alloc, node, *s)),
        Event::KTake { s, .. } => Ok(take_krel(alloc, node, *s)),
        Event::TakePrio { .. } => take_prio(alloc, node),
        Event::Tick { now, .. } => tick(alloc, node, *now),
        Event::Weight {
            v,
            weight: least,
            ..
        } => weight(alloc, node, *v, *least),
        Event::Publish { .. } => publish(alloc, node, document),
        _ => unreachable!(),
    }
}
