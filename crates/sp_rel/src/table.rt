// The reliable flows at one node, and where each stands.
ghost use Rattle.std.specs.Prelude.{◌≡◌, IfErr, IfOk, option_copied};
ghost use Rattle.sp_rel.specs.Places.{place_in};
ghost use Rattle.sp_rules.specs.Rel.{AreStanding, are_ends, first_waiting, is_node, is_waiting, own_flow, position_in, room, start};

use crate::fate::is_one_of;
use crate::flows::Flows;
use crate::pairs::pairs_of;
use crate::peers::Peers;
use crate::place::Place;
use sp_base::{Cursor, Flow, Memory, NodeId};
use sp_msg::Kept;
use sp_rules::RelRefused;
use std::alloc::Global;
use std::marker::Model;

/// The reliable flows at a node.
#[derive(Debug, Drop)]
pub struct RelTable {
    nodes: Vec<NodeId>,
    /// Those of them that are removed. It has room for all.
    pub(crate) removed: Vec<NodeId>,
    pub(crate) flows: Flows,
    pub(crate) peers: Peers,
    /// The place of the flow to this node whose acknowledgement was signed last.
    pub(crate) signed: Cursor,
}

impl Model for RelTable {
    ghost use Rattle.std.specs.Prelude.{◌≤◌, length, vec_capacity};
    ghost use Rattle.sp_rules.specs.Rel.{RelState};

    ghost Value = { RelState };

    ghost view = { λ t. record {
      me = t.flows.me;
      nodes = t.nodes.items;
      removed = t.removed.items;
      bound = t.flows.bound;
      flows = t.flows.flows;
      peers = t.peers;
      signed = t.signed;
    } };

    ghost invariant = { λ t. length t.nodes.items ≤ vec_capacity t.removed };
}

impl RelTable {
    /// The table of a node among these, with these neighbours, that keeps at most `buffer` messages of each flow. No flow is active, and no
    /// memory of messages is taken. It is refused for want of memory alone.
    pub fn new(
        alloc: Global,
        me: NodeId,
        nodes: &[NodeId],
        neighbours: &[NodeId],
        buffer: u16,
    ) -> Result<RelTable, RelRefused>
        ensures table { IfOk result (λ table. table ≡ start me nodes.now neighbours.now buffer) }
        ensures memory { IfErr result (λ e. e ≡ RelRefused.Memory) }
    {
        let pairs = pairs_of(alloc, nodes)?;
        Ok(RelTable {
            nodes: Vec::from_slice(alloc, nodes).map_err(Memory::from)?,
            removed: Vec::with_capacity(alloc, nodes.len()).map_err(Memory::from)?,
            flows: Flows::new(alloc, me, buffer, pairs.as_slice())?,
            peers: Peers::new(alloc, pairs.as_slice(), neighbours)?,
            signed: Cursor::start(),
        })
    }

    /// Where the row of a flow stands.
    pub fn place(&self, flow: Flow) -> Place
        ensures { result ≡ place_in self.now.flows flow }
    {
        self.flows.place(flow)
    }

    /// Base and have of a flow. None exactly where it isn't active here.
    pub fn position(&self, flow: Flow) -> Option<(u64, u64)>
        ensures { result ≡ position_in self.now.flows flow }
    {
        let numbers = self.flows.numbers(self.flows.place(flow));
        if numbers.active {
            Some((numbers.base, numbers.have))
        } else {
            None
        }
    }

    /// The number of the next message of a client to a node.
    pub fn room(&self, dst: NodeId) -> Result<u64, RelRefused>
        ensures { result ≡ room self.now dst }
    {
        let flow = self.own_flow(dst);
        if !self.are_ends(flow, flow.src, dst) {
            return Err(RelRefused::BadEnd);
        }
        let numbers = self.flows.numbers(self.flows.place(flow));
        if numbers.have - numbers.base == u64::from(self.flows.bound()) {
            return Err(RelRefused::Full {
                base: numbers.base,
                have: numbers.have,
            });
        }
        Ok(numbers.have + 1)
    }

    /// The node that the table is of.
    pub fn me(&self) -> NodeId
        ensures { result ≡ self.now.me }
    {
        self.flows.me()
    }

    /// Whether messages of a client to a node wait for their acknowledgement.
    pub fn is_waiting(&self, dst: NodeId) -> bool
        ensures { result ≡ is_waiting self.now dst }
    {
        let numbers = self.flows.numbers(self.flows.place(self.own_flow(dst)));
        numbers.base < numbers.have
    }

    /// The first message of a client to a node that waits for its acknowledgement.
    pub fn first_waiting(&self, dst: NodeId) -> Option<&Kept>
        ensures { option_copied result ≡ first_waiting self.now dst }
    {
        let row = self.flows.row(self.flows.place(self.own_flow(dst)))?;
        row.first()
    }

    /// The flow from this node to another.
    fn own_flow(&self, dst: NodeId) -> Flow
        ensures { result ≡ own_flow self.now dst }
    {
        Flow {
            src: self.flows.me(),
            dst,
        }
    }

    /// For the prover alone, it does nothing when it runs: each flow is a position with its messages, within the bound.
    pub fn recall(&self)
        ensures { AreStanding self.now }
    {
        self.flows.recall();
    }

    /// Whether these are the ends of the flow, and two different nodes.
    pub(crate) fn are_ends(&self, flow: Flow, src: NodeId, dst: NodeId) -> bool
        ensures { result ≡ are_ends self.now flow src dst }
    {
        src.0 == flow.src.0
            && dst.0 == flow.dst.0
            && src.0 != dst.0
            && self.is_node(src)
            && self.is_node(dst)
    }

    /// Whether this is a node that isn't removed.
    fn is_node(&self, u: NodeId) -> bool
        ensures { result ≡ is_node self.now u }
    {
        is_one_of(&self.nodes, u) && !is_one_of(&self.removed, u)
    }
}
