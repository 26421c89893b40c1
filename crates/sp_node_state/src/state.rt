// A node in memory: its parts, and where the link to a neighbour stands among them.
ghost use Rattle.std.specs.Prelude.{◌≡◌, ◌≢◌, ◌≤◌, IfErr, IfOk, Some as There, map, position};
ghost use Rattle.laws_node.specs.Inputs.{ArtsFit};
ghost use Rattle.sp_node_format.specs.Format.{format_of};
ghost use Rattle.sp_node_state.specs.ReadyStates.{IsAnswered};
ghost use Rattle.sp_node_state.specs.States.{is_other};
ghost use Rattle.sp_rules.specs.Node.{call_refusal, is_behind, is_link, is_shut_to, link_in, version_of};
ghost use Rattle.sp_rules.specs.Parts.{changes};
ghost use Rattle.sp_rules.specs.Prio.{is_node};
ghost use Rattle.sp_rules.specs.Topologies.{is_shut};
ghost use Rattle.sp_rules.specs.Versions.{is_heard_of, with_version};
ghost use Rattle.sp_topology.specs.Ranges.{IsTopology};
ghost use Rattle.sp_rules.specs.Sends.{is_unmet};
ghost use Rattle.sp_rules.specs.declared.node.TheConstants.{MAX_CALLS};

use sp_base::{EdgeId, FORMAT_1, NodeId};
use sp_link::Link;
use sp_node_parts::{Fixed, Heard, Live, Parts};
use sp_rules::{MAX_CALLS, NodeRefused};
use sp_sign::NodeSigner;
use sp_topology::NodeKey;
use std::marker::Model;

/// What a node keeps from call to call. `Node` has all of it, and promises more.
#[derive(Drop)]
pub struct State {
    pub fixed: Fixed,
    pub live: Live,
    pub heard: Vec<Heard>,
    pub now: u64,
    pub calls: u64,
    pub links: Vec<Link>,
    pub signer: NodeSigner,
    pub core: Parts,
}

impl Model for State {
    ghost use Rattle.sp_rules.specs.Node.{NodeState};
    ghost use Rattle.sp_node_state.specs.States.{IsFitted, state_of};

    ghost Value = { NodeState };

    ghost view = { λ s. state_of s.fixed s.live s.heard.items s.now s.calls s.links.items s.signer s.core };

    ghost invariant = { λ s. IsFitted s.fixed s.signer };
}

impl State {
    /// For the prover alone, it does nothing when it runs: the arts of the format fit the node.
    #[tactic(auto, using(crate::proofs::Fitted::fitted))]
    pub fn recall(&self)
        ensures { ArtsFit (format_of self.entry.now.fixed) self.entry.now.fixed self.entry.now.signer }
    {
        let _me = &self.fixed;
    }

    /// Whether this is another node of the overlay, also one that is removed.
    pub fn is_other(&self, node: NodeId) -> bool
        ensures { result ≡ is_other self.entry.now node }
    {
        node.0 != self.fixed.me.0 && has_node(self.fixed.topology.nodes.as_slice(), node)
    }

    /// Whether this node knows no life of that one, where nodes run with epochs. Then nothing is sent to it.
    pub fn is_unmet(&self, node: NodeId) -> bool
        ensures { result ≡ is_unmet self.entry.now node }
    {
        self.fixed.epochs && self.core.lives.held_boot(node) == 0
    }

    /// Whether other versions of the topology may follow the one that this node booted with.
    pub fn changes(&self) -> bool
        ensures { result ≡ changes self.entry.now.fixed }
    {
        self.fixed.topology.format != FORMAT_1
    }

    /// The version of the topology that the node runs under.
    pub fn version(&self) -> u32
        ensures { result ≡ self.entry.now.live.version }
    {
        self.live.version
    }

    /// Whether the edge to another node is withdrawn. So is one that isn't there.
    pub fn is_shut_to(&self, v: NodeId) -> bool
        requires { IsTopology self.now.fixed.topology }
        ensures { result ≡ is_shut_to self.entry.now v }
    {
        match self.fixed.topology.edge_of(self.fixed.me, v) {
            Some(edge) => is_shut(self.live.weights.as_slice(), edge),
            None => true,
        }
    }

    /// The version that is kept of a neighbour: 0 before a frame of it came.
    #[tactic(auto, using(sp_base::proofs::RowLemmas::placed))]
    pub fn version_of(&self, v: NodeId) -> u32
        ensures { result ≡ version_of self.entry.now v }
    {
        match heard_of(self.heard.as_slice(), v) {
            Some(place) => self.heard[place].version,
            None => 0,
        }
    }

    /// Whether a neighbour runs under an older version, as far as was heard.
    pub fn is_behind(&self, v: NodeId) -> bool
        ensures { result ≡ is_behind self.entry.now v }
    {
        let theirs = self.version_of(v);
        self.changes() && 0 < theirs && theirs < self.live.version
    }

    /// From now on this version is kept of a neighbour.
    pub fn hear(&mut self, v: NodeId, version: u32)
        ensures { self.new ≡ record self.old { heard = with_version self.old.heard v version } }
    {
        put_heard(&mut self.heard, v, version);
    }

    /// Where the link to a neighbour stands. It is refused where a poll or a datagram isn't answered.
    pub fn place_for(&self, v: NodeId) -> Result<usize, NodeRefused>
        requires { self.now.calls ≤ MAX_CALLS }
        ensures answered { IfOk result (IsAnswered self.entry.now v) }
        ensures no_want { result ≢ Err NodeRefused.Memory }
        ensures refused { IfErr result (λ refused. call_refusal self.entry.now v ≡ There refused) }
    {
        let Some(place) = link_to(self.links.as_slice(), v) else {
            return Err(NodeRefused::NotNeighbour);
        };
        if self.calls == MAX_CALLS {
            return Err(NodeRefused::Worn);
        }
        Ok(place)
    }

    /// The link to a neighbour, which stands in this place.
    #[tactic(auto, using(sp_base::proofs::RowLemmas::placed))]
    pub fn link_at(&self, place: usize, v: NodeId) -> Link
        requires { IsAnswered self.now v place }
        ensures { result ≡ link_in self.entry.now v }
    {
        self.links[place]
    }

    /// The boot and the counter above which a frame of a neighbour is fresh.
    #[tactic(auto, using(sp_base::proofs::RowLemmas::placed))]
    pub fn seen(&self, v: NodeId) -> (u64, u64)
        ensures { result ≡ (link_in self.entry.now v).seen }
    {
        match link_to(self.links.as_slice(), v) {
            Some(place) => self.links[place].seen,
            None => (0, 0),
        }
    }
}

/// Where the link to a neighbour stands. None exactly where there is none.
fn link_to(links: &[Link], v: NodeId) -> Option<usize>
    ensures { result ≡ position (is_link v) links.now }
{
    links.iter().position(|link| link.peer.0 == v.0)
}

/// Whether this is one of the nodes.
fn has_node(nodes: &[NodeKey], node: NodeId) -> bool
    ensures { result ≡ is_node (map (λ n. n.id) nodes.now) node.0 }
{
    'nodes: for known in nodes {
        if known.id.0 == node.0 {
            return true;
        }
    }
    false
}

/// Whether the edge is withdrawn where edges have these weights.
fn is_shut(weights: &[u32], edge: EdgeId) -> bool
    ensures { result ≡ is_shut weights.now edge.0 }
{
    match weights.get(edge.0 as usize) {
        Some(weight) => *weight == 0,
        None => true,
    }
}

/// Where the version that is kept of a neighbour stands. None exactly where none is kept.
fn heard_of(heard: &[Heard], v: NodeId) -> Option<usize>
    ensures { result ≡ position (is_heard_of v) heard.now }
{
    heard.iter().position(|row| row.peer.0 == v.0)
}

/// This version is kept of a neighbour. Nothing changes where it isn't one.
#[tactic(auto, using(sp_base::proofs::RowLemmas::placed))]
fn put_heard(heard: &mut Vec<Heard>, v: NodeId, version: u32)
    ensures { heard.new.items ≡ with_version heard.old.items v version }
{
    if let Some(place) = heard_of(heard.as_slice(), v) {
        heard[place] = Heard { peer: v, version };
    }
}
