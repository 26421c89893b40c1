// The boots that a node holds of all nodes, 0 of each that it doesn't know.
//
//     a row for each node:   node | the Epoch object of its last start, if one came
ghost use Rattle.std.specs.Prelude.{◌≡◌, IfOk, length, map, option_copied, position};
ghost use Rattle.sp_msg.specs.Views.{as_body};
ghost use Rattle.sp_msg.specs.declared.body.Body.TheVariants as bodies;
ghost use Rattle.sp_rules.specs.Lives.{are_held, boot_of, boot_said, held, held_boot, is_dated, is_known, is_life, judge_epoch, next, next_row, no_life};
ghost use Rattle.sp_rules.specs.Lives.{object_in, origin_said, start};

use crate::Origins;
use sp_base::{Flow, Memory, NodeId};
use sp_msg::{Body, BodyRef, Epoch, Kept};
use sp_rules::{EpochJudged, Life};
use std::alloc::Global;
use std::marker::Model;

/// What a node knows of the lives of all nodes. A contract sees the rows of the rules (`sp_rules`).
#[derive(Debug, Drop)]
pub struct Lives {
    rows: Vec<Life>,
    /// Which rows hold an object.
    active: Vec<bool>,
}

impl Model for Lives {
    ghost use Rattle.std.specs.Prelude.{◌≡◌, List, is_some, map};
    ghost use Rattle.sp_rules.specs.declared.lives.Life.{Life};

    ghost Value = { List Life };

    ghost view = { λ lives. lives.rows.items };

    ghost invariant = { λ lives. lives.active.items ≡ map (λ (l : Life). is_some l.object) lives.rows.items };
}

impl Lives {
    /// Of none of these nodes anything came. Only want of memory refuses.
    pub fn new(alloc: Global, nodes: &[NodeId]) -> Result<Lives, Memory>
        ensures { IfOk result (λ lives. lives ≡ start nodes.now) }
    {
        let mut rows = Vec::with_capacity(alloc, nodes.len())?;
        let mut active = Vec::with_capacity(alloc, nodes.len())?;
        'nodes: for &node in nodes {
            rows.push(Life { node, object: None })?;
            active.push(false)?;
        }
        Ok(Lives { rows, active })
    }

    /// The boot that is held of a node, 0 where none is.
    #[tactic(auto, using(sp_base::proofs::RowLemmas::placed))]
    pub fn held_boot(&self, node: NodeId) -> u64
        ensures { result ≡ held_boot self.entry.now node }
    {
        match life_of(self.rows.as_slice(), node) {
            Some(place) => boot_of(&self.rows[place].object),
            None => 0,
        }
    }

    /// Whether these are the boots that are held of the ends of a flow.
    pub fn are_held(&self, flow: Flow, sboot: u64, dboot: u64) -> bool
        ensures { result ≡ are_held self.entry.now flow sboot dboot }
    {
        sboot == self.held_boot(flow.src) && dboot == self.held_boot(flow.dst)
    }

    /// Whether a message names the boots that are held of its ends, where it names any.
    pub fn is_dated(&self, body: &BodyRef<'_>) -> bool
        ensures { result ≡ is_dated self.entry.now (as_body body.now) }
    {
        match body {
            BodyRef::Prio(prio) => prio.sboot == self.held_boot(prio.src),
            BodyRef::Rel(rel) => self.are_held(
                Flow::between(rel.src, rel.dst),
                rel.sboot,
                rel.dboot,
            ),
            BodyRef::Ack(ack) => self.are_held(
                Flow::between(ack.src, ack.dst),
                ack.sboot,
                ack.dboot,
            ),
            BodyRef::Krel(krel) => {
                self.are_held(Flow::between(krel.src, krel.dst), krel.sboot, krel.dboot)
            }
            BodyRef::Kack(kack) => {
                self.are_held(Flow::between(kack.src, kack.dst), kack.sboot, kack.dboot)
            }
            BodyRef::Weight(_) | BodyRef::Epoch(_) => true,
        }
    }

    /// What this node says of an Epoch object, but for its signature.
    pub fn judge(&self, me: NodeId, epoch: &Epoch) -> EpochJudged
        ensures { result ≡ judge_epoch me self.entry.now (bodies.Epoch epoch.now) }
    {
        if epoch.origin.0 == me.0 || !self.is_known(epoch.origin) {
            return EpochJudged::BadEnd;
        }
        if epoch.boot <= self.held_boot(epoch.origin) {
            return EpochJudged::Old;
        }
        EpochJudged::New
    }

    /// Whether it is a node.
    fn is_known(&self, node: NodeId) -> bool
        ensures { result ≡ is_known self.entry.now node }
    {
        self.rows.iter().any(|life| life.node.0 == node.0)
    }

    /// Holds an Epoch object in the row of its origin. Nothing changes where that is no node. It takes no memory.
    pub fn hold(&mut self, object: Kept)
        ensures { self.new ≡ held self.old object }
    {
        let node = origin_said(&object.body);
        if let Some(place) = life_of(self.rows.as_slice(), node) {
            self.rows[place] = Life {
                node,
                object: Some(object),
            };
            self.active[place] = true;
        }
    }

    /// The object that goes next to the node in this place. None exactly where none is held.
    pub fn next(&self, origins: &Origins, v: usize) -> Option<&Kept>
        ensures { option_copied result ≡ next self.entry.now origins.now v }
    {
        match self.next_row(origins, v) {
            Some(row) => object_in(self.rows.as_slice(), row),
            None => None,
        }
    }

    /// The row that goes next to the node in this place.
    pub fn next_row(&self, origins: &Origins, v: usize) -> Option<usize>
        ensures { result ≡ next_row self.entry.now origins.now v }
    {
        origins.cycle_at(v).next(self.active.as_slice())
    }
}

/// The object that is held in this row.
fn object_in(rows: &[Life], row: usize) -> Option<&Kept>
    ensures { option_copied result ≡ object_in rows.now row }
{
    match rows.get(row) {
        Some(life) => life.object.as_ref(),
        None => None,
    }
}

/// Where the row of a node stands. None exactly where there is none.
fn life_of(rows: &[Life], node: NodeId) -> Option<usize>
    ensures { result ≡ position (is_life node) rows.now }
{
    rows.iter().position(|life| life.node.0 == node.0)
}

/// The boot of an object that is held, 0 where none is.
fn boot_of(object: &Option<Kept>) -> u64
    ensures { result ≡ boot_of object.now }
{
    match object {
        Some(kept) => boot_said(&kept.body),
        None => 0,
    }
}

/// The boot that a message says.
fn boot_said(body: &Body) -> u64
    ensures { result ≡ boot_said body.now }
{
    match body {
        Body::Epoch(epoch) => epoch.boot,
        _ => 0,
    }
}

/// The node that a message is of. Lives hold Epoch objects alone.
fn origin_said(body: &Body) -> NodeId
    ensures { result ≡ origin_said body.now }
{
    match body {
        Body::Epoch(epoch) => epoch.origin,
        _ => NodeId(0),
    }
}
