// The parts of a node in memory.
ghost use Rattle.std.specs.Prelude.{◌≡◌, ◌≤◌, IfOk, IfSome, None as Nothing, length, map, replicate};
ghost use Rattle.sp_node_parts.specs.Closing.{active_flows, bare_fixed, closing_room, flows_closed, flows_closed_effects, withdrawn_of};
ghost use Rattle.sp_rules.specs.Kflow as kflow;
ghost use Rattle.sp_rules.specs.Parts.{as_neighbour, bare_parts, closed, closed_effects, empty_parts, flows_of};
ghost use Rattle.sp_rules.specs.Prio as prio;
ghost use Rattle.sp_rules.specs.Rel as rel;
ghost use Rattle.sp_rules.specs.Weights as weights;
ghost use Rattle.sp_rules.specs.declared.kflow.FlowKind.{FlowKind};
ghost use Rattle.sp_rules.specs.declared.store.TheConstants.{IDS};
ghost use Rattle.sp_rules.specs.Lives as lives;
ghost use Rattle.sp_rules.specs.Told.{told};
ghost use Rattle.sp_topology.specs.Ranges.{IsTopology};

use crate::withdrawn::Withdrawn;
use sp_base::{EdgeId, Limits, Memory, NodeId};
use sp_kflow::KTable;
use sp_lives::{Lives, Origins};
use sp_msg::Effects;
use sp_prio::{Neighbour, PrioTable};
use sp_rel::RelTable;
use sp_rules::FlowKind;
use sp_topology::{NodeKey, Topology};
use sp_weights::Weights;
use std::alloc::Global;
use std::marker::Model;

/// What a node keeps for others. A contract sees the parts of the rules (`sp_rules`).
#[derive(Drop)]
pub struct Parts {
    pub weights: Weights,
    pub prio: PrioTable,
    pub rel: RelTable,
    pub kflow: KTable,
    pub lives: Lives,
    pub origins: Origins,
}

impl Model for Parts {
    ghost use Rattle.sp_rules.specs.Parts as rules;

    ghost Value = { rules.Parts };

    ghost view = { λ c. record { weights = c.weights; prio = c.prio; rel = c.rel; kflow = c.kflow; lives = c.lives; origins = c.origins } };
}

impl Parts {
    /// The parts of a node under a topology that withdraws this, with nothing in them: room for `limits.buffer` messages of each flow and `limits.store`
    /// entries of each store. It is refused for want of memory alone.
    pub fn new(
        alloc: Global,
        me: NodeId,
        topology: &Topology,
        withdrawn: &Withdrawn,
        limits: Limits,
    ) -> Result<Parts, Memory>
        requires topology { IsTopology topology.now }
        requires withdrawn { withdrawn.now ≡ withdrawn_of topology.now }
        ensures { IfOk result (λ parts. parts ≡ empty_parts (bare_fixed me topology.now) limits.buffer limits.store) }
    {
        let mut parts = Parts::bare(alloc, me, topology, limits)?;
        let Ok(mut effects) = Effects::with_room(alloc, 0) else {
            drop(parts);
            return Err(Memory);
        };
        parts.close(topology, withdrawn, &mut effects);
        Ok(parts)
    }

    /// How many effects a version of the topology has at most: one for each entry that is stored, and one for each active flow. None where no number of
    /// the machine's is so great.
    pub fn closing_room(&self) -> Option<usize>
        ensures { IfSome result (λ room. room ≡ closing_room self.now) }
    {
        let entries = self.prio.held().checked_add(self.rel.active())?;
        entries.checked_add(self.kflow.flows.active())
    }

    /// From now on the topology is this one, with the same edges and nodes, and withdraws this: what waited for withdrawn edges leaves, and flows with a
    /// removed end end. Each is told. It takes no memory.
    pub fn close(&mut self, topology: &Topology, withdrawn: &Withdrawn, out: &mut Effects)
        requires withdrawn { withdrawn.now ≡ withdrawn_of topology.now }
        requires edges { length topology.now.edges ≡ length self.old.weights.edges }
        requires nodes { length topology.now.nodes ≡ length self.old.prio.nodes }
        requires flows { (kind : FlowKind) → length topology.now.nodes ≡ length (flows_of kind self.old).nodes }
        requires room { closing_room self.old ≤ out.old.room }
        ensures parts { self.new ≡ closed self.old withdrawn.now.weights withdrawn.now.removed }
        ensures told { out.new ≡ told out.old (closed_effects self.old withdrawn.now.weights withdrawn.now.removed) }
    {
        self.weights.replace(topology);
        self.prio.withdraw(
            withdrawn.weights.as_slice(),
            withdrawn.removed.as_slice(),
            out,
        );
        self.end_flows(withdrawn.removed.as_slice(), out);
    }

    /// From now on these nodes are removed: flows with one of them as an end end, and are told, plain ones first. It takes no memory.
    fn end_flows(&mut self, removed: &[NodeId], out: &mut Effects)
        requires few { (kind : FlowKind) → length removed.now ≤ length (flows_of kind self.old).nodes }
        requires room { active_flows self.old ≤ out.old.room }
        ensures parts { self.new ≡ flows_closed self.old removed.now }
        ensures told { out.new ≡ told out.old (flows_closed_effects self.old removed.now) }
    {
        self.rel.end(FlowKind::Plain, removed, out);
        self.kflow.flows.end(FlowKind::Paths, removed, out);
    }

    /// The parts before anything is withdrawn.
    fn bare(alloc: Global, me: NodeId, topology: &Topology, limits: Limits) -> Result<Parts, Memory>
        requires { IsTopology topology.now }
        ensures { IfOk result (λ parts. parts ≡ bare_parts (bare_fixed me topology.now) limits.buffer limits.store) }
    {
        let Ok(joined) = topology.neighbours(alloc, me) else {
            return Err(Memory);
        };
        let nodes = ids_of(alloc, topology.nodes.as_slice())?;
        let neighbours = neighbours_of(alloc, &joined)?;
        let peers = peers_of(alloc, &joined)?;
        tables_of(alloc, me, topology, limits, &nodes, &neighbours, &peers)
    }
}

/// The tables, with nothing in them.
fn tables_of(
    alloc: Global,
    me: NodeId,
    topology: &Topology,
    limits: Limits,
    nodes: &[NodeId],
    neighbours: &[Neighbour],
    peers: &[NodeId],
) -> Result<Parts, Memory>
    requires topology { IsTopology topology.now }
    requires few { length neighbours.now ≤ IDS }
    ensures { IfOk result (λ parts. parts ≡ record {
      weights = weights.start topology.now;
      prio = prio.start me.0 nodes.now neighbours.now limits.store;
      rel = rel.start me nodes.now peers.now limits.buffer;
      kflow = kflow.start me nodes.now neighbours.now limits.buffer;
      lives = lives.start nodes.now;
      origins = replicate (length nodes.now) Nothing;
    }) }
{
    let weights = Weights::new(alloc, topology)?;
    let prio = PrioTable::new(alloc, me, nodes, neighbours, limits.store)?;
    let Ok(rel) = RelTable::new(alloc, me, nodes, peers, limits.buffer) else {
        return Err(Memory);
    };
    let kflow = KTable::new(alloc, me, nodes, neighbours, limits.buffer)?;
    let lives = Lives::new(alloc, nodes)?;
    let origins = Origins::new(alloc, nodes.len())?;
    Ok(Parts {
        weights,
        prio,
        rel,
        kflow,
        lives,
        origins,
    })
}

fn ids_of(alloc: Global, nodes: &[NodeKey]) -> Result<Vec<NodeId>, Memory>
    ensures { IfOk result (λ ids. ids.items ≡ map (λ n. n.id) nodes.now) }
{
    Ok(nodes.iter().map(|node| node.id).collect(alloc)?)
}

fn neighbours_of(alloc: Global, joined: &[(NodeId, EdgeId)]) -> Result<Vec<Neighbour>, Memory>
    ensures { IfOk result (λ neighbours. neighbours.items ≡ map as_neighbour joined.now) }
{
    let neighbours = joined
        .iter()
        .map(|(id, edge)| Neighbour {
            id: *id,
            edge: *edge,
        })
        .collect(alloc)?;
    Ok(neighbours)
}

fn peers_of(alloc: Global, joined: &[(NodeId, EdgeId)]) -> Result<Vec<NodeId>, Memory>
    ensures { IfOk result (λ peers. peers.items ≡ map (λ n. n.0) joined.now) }
{
    Ok(joined.iter().map(|(id, _)| *id).collect(alloc)?)
}
