// What starts of a scenario's nodes need. Each key is hashed once.
ghost use Rattle.std.specs.Prelude.{◌≡◌, ◌≤◌, ◌∷◌, ◌++◌, [], IfOk, IsTrue, OnOk, false, length, map};
ghost use Rattle.sp_base.specs.declared.limits.TheConstants.{MAX_EDGES_2};
ghost use Rattle.sp_adversary.specs.Documents.{administrator_of, version_by};
ghost use Rattle.sp_hss.specs.KeyTree.{total};
ghost use Rattle.sp_rules.specs.Node.{start_effects};
ghost use Rattle.laws_runs_format.specs.Arts.{arts_of};
ghost use Rattle.sp_runs.specs.Scenarios.{IsHeader, document_of, edge_key, node_seed, setting_of, unsigned_of};
ghost use Rattle.sp_runs.specs.Settings.{fixed_at, is_correct, node_at_start};
ghost use Rattle.sp_runs.specs.Worlds.{at_start};
ghost use Rattle.sp_sign.specs.Heights.{param_of};
ghost use Rattle.sp_rules.specs.Topologies.{weights_in};
ghost use Rattle.sp_topology.specs.Neighbours.{neighbours_from};
ghost use Rattle.sp_topology.specs.Ranges.{IsTopology};
ghost use Rattle.sp_world.specs.Documents.{CanSign};
ghost use Rattle.sp_world.specs.Boots.{CanStart, IsHome, config_of, first_of, own_signer, seed_key};

use sp_adversary::{Administrator, edge_key, node_seed};
use sp_base::{Bytes, EdgeId, Listed, Memory, NodeId, push};
use sp_epoch::Started;
use sp_forgery::is_correct;
use sp_hss::{LmsParam, SeedKey, Signer};
use sp_node::{Node, NodeConfig};
use sp_rules::Step;
use sp_schedule_events::Scenario;
use sp_sign::{NodeSigner, param_of};
use sp_topology::{Edge, LmsHeight, NodeKey};
use sp_world_steps::Member;
use std::alloc::Global;
use std::marker::Model;

/// The version that each start begins with.
const FIRST_VERSION: u32 = 1;

/// The keys of the seeds of nodes 1 to N, the administrator, and the document of the first version.
#[derive(Drop)]
pub struct Home {
    seeds: Vec<SeedKey>,
    administrator: Administrator,
    document: Bytes,
}

impl Model for Home {
    ghost use Rattle.sp_world.specs.Boots as boots;

    ghost Value = { boots.Home };

    ghost view = { λ h. record { seeds = h.seeds.items; administrator = h.administrator; document = h.document } };
}

impl Home {
    /// What starts of this scenario's nodes need. It costs a tree for each node and two for the administrator. Only want of memory refuses.
    #[tactic(auto, using(crate::proofs::Booting::first_most, crate::proofs::Booting::first_is_signed))]
    pub fn make(alloc: Global, scenario: &Scenario) -> Result<Home, Memory>
        requires { IsHeader scenario.now }
        ensures { IfOk result (IsHome scenario.now) }
    {
        let mut keys = Vec::new(alloc);
        let mut seeds = Vec::new(alloc);
        let height = param_of(scenario.height);
        'nodes: for before in 0..scenario.graph.nodes {
            let id = NodeId(before + 1);
            let seed = seed_key(alloc, height, &scenario.seed, id)?;
            let key = seed.public();
            push(&mut seeds, seed)?;
            push(&mut keys, NodeKey { id, key })?;
        }
        let administrator = Administrator::new(alloc, scenario, &keys)?;
        let weights = weights_in(alloc, scenario.graph.edges.as_slice())?;
        let document = administrator.document(alloc, FIRST_VERSION, &weights)?;
        Ok(Home {
            seeds,
            administrator,
            document,
        })
    }

    /// A correct node as it starts with this boot and these indexes, and what its start causes. Only want of memory refuses.
    #[tactic(auto, using(crate::proofs::Booting::may_start, crate::proofs::Booting::at_start, crate::proofs::Booting::told_there))]
    pub fn start(
        &self,
        alloc: Global,
        scenario: &Scenario,
        u: NodeId,
        start: Started,
    ) -> Result<Step<Member>, Memory>
        requires header { IsHeader scenario.now }
        requires home { IsHome scenario.now self.now }
        requires correct { IsTrue (is_correct (setting_of scenario.now) u) }
        requires can { CanStart scenario.now start }
        ensures node { IfOk result (λ step. step.reply ≡ node_at_start (arts_of (setting_of scenario.now)) (setting_of scenario.now) u start) }
        ensures told { IfOk result (λ step. step.effects.list
            ≡ start_effects (arts_of (setting_of scenario.now)) (fixed_at (setting_of scenario.now) u start.boot)) }
    {
        let signer = self.signer(alloc, scenario, u, start)?;
        let config = self.config(alloc, scenario, u)?;
        match Node::boot(alloc, config, signer, start.boot) {
            Ok(Step { reply, effects }) => Ok(Step {
                reply: Member::new(u, start.boot, reply),
                effects,
            }),
            Err(_) => Err(Memory),
        }
    }

    /// The signer of a node's key with these indexes. It costs no upper tree.
    #[tactic(auto, using(crate::proofs::Booting::bound_is_within, crate::proofs::Booting::signer_is))]
    fn signer(
        &self,
        alloc: Global,
        scenario: &Scenario,
        u: NodeId,
        start: Started,
    ) -> Result<NodeSigner, Memory>
        requires home { IsHome scenario.now self.now }
        requires correct { IsTrue (is_correct (setting_of scenario.now) u) }
        requires can { CanStart scenario.now start }
        ensures { IfOk result (λ signer. signer ≡ own_signer scenario.now u start) }
    {
        let key = self.key(alloc, scenario, u)?;
        match Signer::of(alloc, key, start.index, start.bound) {
            Ok(signer) => Ok(NodeSigner::new(u, signer)),
            Err(_) => Err(Memory),
        }
    }

    /// The node as it is configured.
    #[tactic(auto, using(crate::proofs::Booting::few_edges))]
    fn config(&self, alloc: Global, scenario: &Scenario, me: NodeId) -> Result<NodeConfig, Memory>
        requires header { IsHeader scenario.now }
        requires home { IsHome scenario.now self.now }
        ensures { IfOk result (λ config. config ≡ config_of scenario.now me) }
    {
        let edges = scenario.graph.edges.as_slice();
        Ok(NodeConfig {
            me,
            topology: self.administrator.topology(alloc)?,
            document: Bytes::copy(alloc, self.document.as_slice())?,
            limits: scenario.limits,
            keys: Listed::from_vec(edge_keys(alloc, &scenario.seed, edges, me)?),
            admin: self.administrator.public(),
            epochs: scenario.epochs,
        })
    }

    /// The document of a version with these weights.
    #[tactic(auto, using(crate::proofs::Booting::can_sign, crate::proofs::Booting::is_signed))]
    pub fn document(
        &self,
        alloc: Global,
        _scenario: &Scenario,
        version: u32,
        weights: &[u32],
    ) -> Result<Bytes, Memory>
        requires home { IsHome _scenario.now self.now }
        requires can { CanSign _scenario.now version weights.now }
        ensures { IfOk result (λ bytes. bytes ≡ document_of _scenario.now version weights.now) }
    {
        self.administrator.document(alloc, version, weights)
    }

    /// What is signed of it.
    #[tactic(auto, using(crate::proofs::Booting::can_write, crate::proofs::Booting::is_written))]
    pub fn unsigned(
        &self,
        alloc: Global,
        _scenario: &Scenario,
        version: u32,
        weights: &[u32],
    ) -> Result<Bytes, Memory>
        requires home { IsHome _scenario.now self.now }
        requires can { IsTopology (version_by (administrator_of _scenario.now) version weights.now) }
        ensures { IfOk result (λ bytes. bytes ≡ unsigned_of _scenario.now version weights.now) }
    {
        self.administrator.unsigned(alloc, version, weights)
    }

    /// The key of a correct node's seed.
    #[tactic(auto, using(crate::proofs::Booting::in_home))]
    fn key(&self, alloc: Global, scenario: &Scenario, u: NodeId) -> Result<SeedKey, Memory>
        requires home { IsHome scenario.now self.now }
        requires correct { IsTrue (is_correct (setting_of scenario.now) u) }
        ensures { IfOk result (λ key. key ≡ seed_key scenario.now u.0) }
    {
        let Some(seed) = self.seeds.get(usize::from(u.0) - 1) else {
            unreachable!()
        };
        match seed.copied(alloc) {
            Ok(key) => Ok(key),
            Err(_) => Err(Memory),
        }
    }

    /// The correct nodes of a scenario without epochs, in the order of their ids: each has started with boot 1 and all indexes.
    #[tactic(auto, using(crate::proofs::Booting::all_booted))]
    pub fn first_nodes(&self, alloc: Global, scenario: &Scenario) -> Result<Vec<Member>, Memory>
        requires header { IsHeader scenario.now }
        requires home { IsHome scenario.now self.now }
        requires plain { scenario.now.epochs ≡ false }
        ensures { IfOk result (λ nodes. nodes.items ≡ (at_start (setting_of scenario.now)).nodes) }
    {
        let mut nodes = Vec::new(alloc);
        'each: for before in 0..scenario.graph.nodes {
            self.first_node(alloc, scenario, NodeId(before + 1), &mut nodes)?;
        }
        Ok(nodes)
    }

    /// One more of them, where it is correct.
    #[tactic(auto, using(crate::proofs::Booting::first_is, crate::proofs::Booting::boots_one, crate::proofs::Booting::boots_none))]
    fn first_node(
        &self,
        alloc: Global,
        scenario: &Scenario,
        u: NodeId,
        nodes: &mut Vec<Member>,
    ) -> Result<(), Memory>
        requires header { IsHeader scenario.now }
        requires home { IsHome scenario.now self.now }
        requires plain { scenario.now.epochs ≡ false }
        ensures { OnOk result (nodes.new.items ≡ nodes.old.items ++ first_of scenario.now (u ∷ [])) }
    {
        if !is_correct(scenario, u) {
            return Ok(());
        }
        let first = Started {
            boot: 1,
            index: 0,
            bound: total(scenario.height),
        };
        let step = self.start(alloc, scenario, u, first)?;
        push(nodes, step.reply)
    }
}

/// How many messages the key of a node signs.
pub fn total(height: LmsHeight) -> u64
    ensures { result ≡ total (param_of height) }
{
    let leaves = u64::from(param_of(height).leaf_count());
    leaves * leaves
}

/// The key of a node's seed.
fn seed_key(
    alloc: Global,
    height: LmsParam,
    seed: &[u8; 32],
    node: NodeId,
) -> Result<SeedKey, Memory>
    ensures { IfOk result (λ key. key ≡ record { height = height; seed = node_seed seed.now node.0 }) }
{
    match SeedKey::make(alloc, height, node_seed(seed, node)) {
        Ok(key) => Ok(key),
        Err(_) => Err(Memory),
    }
}

/// The weight of each edge.
fn weights_in(alloc: Global, edges: &[Edge]) -> Result<Vec<u32>, Memory>
    ensures { IfOk result (λ weights. weights.items ≡ weights_in edges.now) }
{
    let weights = edges.iter().map(|edge| edge.weight).collect(alloc)?;
    Ok(weights)
}

/// The edges of a node with their keys.
fn edge_keys(
    alloc: Global,
    seed: &[u8; 32],
    edges: &[Edge],
    node: NodeId,
) -> Result<Vec<(EdgeId, [u8; 32])>, Memory>
    requires { length edges.now ≤ MAX_EDGES_2 }
    ensures { IfOk result (λ keys. keys.items ≡ map (λ n. (n.1, edge_key seed.now n.1.0)) (neighbours_from node.0 0 edges.now)) }
{
    let mut keys = Vec::new(alloc);
    'edges: for (place, edge) in edges.iter().enumerate() {
        if edge.other_end(node).is_some() {
            let id = EdgeId(place as u16);
            push(&mut keys, (id, edge_key(seed, id)))?;
        }
    }
    Ok(keys)
}
