// What a node is made of at the start of one of its lives.
ghost use Rattle.std.specs.Prelude.{◌≡◌, ◌<◌, ◌^◌, ◌↔◌, IfErr, IfOk, IsTrue, Some as There, length, map, zip};
ghost use Rattle.laws_node.specs.Nodes.{SignerHolds};
ghost use Rattle.sp_base.specs.Spelling.{AreBytes};
ghost use Rattle.sp_node_state.specs.Boots.{Announces, IsBootable, Says, booted_of};
ghost use Rattle.sp_node_state.specs.States.{signer_in};
ghost use Rattle.sp_rules.specs.Link.{new_link};
ghost use Rattle.sp_rules.specs.Parts.{neighbours_of};
ghost use Rattle.sp_sign.specs.Heights.{param_of};
ghost use Rattle.sp_topology.specs.Keys.{key_of};
ghost use Rattle.sp_topology.specs.Neighbours.{neighbours_from};
ghost use Rattle.sp_rules.specs.Topologies.{IsRunnable};
ghost use Rattle.sp_rules.specs.Versions.{none_heard};
ghost use Rattle.sp_topology.specs.Ranges.{IsTopology};

use crate::state::State;
use sp_base::{Bytes, EdgeId, FORMAT_2, Limits, Listed, Memory, NodeId};
use sp_frame::MAX_DOCUMENT_BYTES;
use sp_link::Link;
use sp_node_parts::{Fixed, Heard, Live, Parts, Withdrawn};
use sp_rules::NodeRefused;
use sp_sign::{NodeSigner, param_of};
use sp_topology::{Edge, LmsHeight, Topology};
use std::alloc::Global;
use std::fmt;

/// Who the node is, the topology that it boots with and the document that says so with whatever signature, how much it keeps, the key that it shares with the
/// neighbour at each of its edges, ascending by edge, the administrator's key, and whether nodes run with epochs: a node may then start again, and says so to
/// all others. A debug line says no key.
#[derive(Drop)]
pub struct NodeConfig {
    pub me: NodeId,
    pub topology: Topology,
    pub document: Bytes,
    pub limits: Limits,
    pub keys: Listed<(EdgeId, [u8; 32])>,
    pub admin: [u8; 60],
    pub epochs: bool,
}

impl fmt::Debug for NodeConfig {
    fn fmt<W: fmt::Write>(&self, f: &mut fmt::Formatter<W>) -> fmt::Result {
        f.debug_struct("NodeConfig")
            .field("me", &self.me)
            .field("limits", &self.limits)
            .field("epochs", &self.epochs)
            .finish_non_exhaustive()
    }
}

/// Whether a node may start a life with these, where the document says the topology: what `Node::boot` asks for. It takes no memory.
#[tactic(auto, using(sp_base::proofs::FormatLemmas::few_edges))]
pub fn can_boot(config: &NodeConfig, signer: &NodeSigner, boot: u64) -> bool
    requires topology { IsRunnable config.now.topology }
    requires document { Says config.now.document config.now.topology }
    ensures { IsTrue result ↔ IsBootable config.now signer.now boot }
{
    let topology = &config.topology;
    boot >= 1
        && config.document.as_slice().len() <= MAX_DOCUMENT_BYTES
        && signer.node() == config.me
        && has_height(signer, topology.height)
        && has_key(topology, config.me, &signer.public())
        && has_keys(topology.edges.as_slice(), config.me, config.keys.as_slice())
        && (!config.epochs || can_announce(topology, signer))
}

/// Whether the signer signs an Epoch object next: only format 2 has such objects, and an index must be left.
fn can_announce(topology: &Topology, signer: &NodeSigner) -> bool
    ensures { IsTrue result ↔ Announces topology.now (signer_in signer.now) }
{
    topology.format == FORMAT_2 && signer.index() < signer.bound()
}

/// Whether the key has trees of this height.
#[tactic(auto, using(crate::proofs::Starts::one_height))]
fn has_height(signer: &NodeSigner, height: LmsHeight) -> bool
    ensures { IsTrue result ↔ (signer.now.signer.height ≡ param_of height) }
{
    let leaves = u64::from(param_of(height).leaf_count());
    signer.total() == leaves * leaves
}

/// Whether the topology has this key for the node.
fn has_key(topology: &Topology, node: NodeId, key: &[u8; 60]) -> bool
    ensures { IsTrue result ↔ (key_of node.0 topology.now.nodes ≡ There key.now) }
{
    match topology.key_of(node) {
        Some(known) => known == key,
        None => false,
    }
}

/// Whether the keys are those of the node's edges, in their order.
fn has_keys(edges: &[Edge], node: NodeId, keys: &[(EdgeId, [u8; 32])]) -> bool
    requires { length edges.now < 2 ^ 16 }
    ensures { IsTrue result ↔ (map (λ k. k.0) keys.now ≡ map (λ n. n.1) (neighbours_from node.0 0 edges.now)) }
{
    let mut rest = keys;
    'edges: for (place, edge) in edges.iter().enumerate() {
        if edge.other_end(node).is_none() {
            continue;
        }
        let Some((first, others)) = rest.split_first() else {
            return false;
        };
        if first.0.0 as usize != place {
            return false;
        }
        rest = others;
    }
    rest.is_empty()
}

impl State {
    /// A node of which nothing was sent, heard or kept.
    pub fn boot(
        alloc: Global,
        config: NodeConfig,
        signer: NodeSigner,
        boot: u64,
    ) -> Result<State, NodeRefused>
        requires { IsBootable config signer boot }
        ensures state { IfOk result (λ state. state ≡ booted_of config signer boot) }
        ensures signer { IfOk result (λ state. SignerHolds state.signer) }
        ensures document { IfOk result (λ state. AreBytes state.live.document) }
        ensures memory { IfErr result (λ refused. refused ≡ NodeRefused.Memory) }
    {
        let NodeConfig {
            me,
            topology,
            document,
            limits,
            keys,
            admin,
            epochs,
        } = config;
        let fixed = Fixed {
            me,
            boot,
            topology,
            document,
            signature_len: signer.signature_len(),
            admin,
            epochs,
        };
        recall_bytes(fixed.document.as_slice());
        let heard = heard_of(alloc, &fixed)?;
        let links = links_of(alloc, &fixed, keys.as_slice())?;
        let withdrawn = Withdrawn::of(alloc, &fixed.topology)?;
        let live = live_of(alloc, &fixed, &withdrawn)?;
        let core = Parts::new(alloc, me, &fixed.topology, &withdrawn, limits)?;
        let _reserved = (signer.index(), signer.bound());
        Ok(State {
            fixed,
            live,
            heard,
            now: 0,
            calls: 0,
            links,
            signer,
            core,
        })
    }
}

/// For the prover alone, it does nothing when it runs: these are bytes.
fn recall_bytes(bytes: &[u8])
    ensures { AreBytes bytes.now }
{
    let _count = bytes.len();
}

/// Of each neighbour nothing was heard.
fn heard_of(alloc: Global, fixed: &Fixed) -> Result<Vec<Heard>, Memory>
    requires { IsTopology fixed.now.topology }
    ensures { IfOk result (λ heard. heard.items ≡ map (λ n. none_heard n.0) (neighbours_of fixed.now)) }
{
    let Ok(neighbours) = fixed.topology.neighbours(alloc, fixed.me) else {
        return Err(Memory);
    };
    unheard(alloc, &neighbours)
}

/// Of each of these nothing was heard.
fn unheard(alloc: Global, neighbours: &[(NodeId, EdgeId)]) -> Result<Vec<Heard>, Memory>
    ensures { IfOk result (λ heard. heard.items ≡ map (λ n. none_heard n.0) neighbours.now) }
{
    let heard = neighbours
        .iter()
        .map(|neighbour| Heard {
            peer: neighbour.0,
            version: 0,
        })
        .collect(alloc)?;
    Ok(heard)
}

/// The version that a node boots with.
fn live_of(alloc: Global, fixed: &Fixed, withdrawn: &Withdrawn) -> Result<Live, Memory>
    ensures { IfOk result (λ live. live ≡ record {
      version = fixed.now.topology.version;
      weights = withdrawn.now.weights;
      document = fixed.now.document;
    }) }
{
    Ok(Live {
        version: fixed.topology.version,
        weights: Listed::from_vec(Vec::from_slice(alloc, withdrawn.weights.as_slice())?),
        document: Bytes::copy(alloc, fixed.document.as_slice())?,
    })
}

/// A link to each neighbour, with the key of the edge to it.
fn links_of(alloc: Global, fixed: &Fixed, keys: &[(EdgeId, [u8; 32])]) -> Result<Vec<Link>, Memory>
    requires { IsTopology fixed.now.topology }
    ensures { IfOk result (λ links. links.items ≡ map (λ p. new_link fixed.now.me p.0.0 fixed.now.boot p.1.1) (zip (neighbours_of fixed.now) keys.now)) }
{
    let Ok(neighbours) = fixed.topology.neighbours(alloc, fixed.me) else {
        return Err(Memory);
    };
    let links = keyed(alloc, fixed.me, fixed.boot, &neighbours, keys)?;
    Ok(links)
}

/// A link to each of these with the key in its place.
fn keyed(
    alloc: Global,
    me: NodeId,
    boot: u64,
    neighbours: &[(NodeId, EdgeId)],
    keys: &[(EdgeId, [u8; 32])],
) -> Result<Vec<Link>, Memory>
    ensures { IfOk result (λ links. links.items ≡ map (λ p. new_link me p.0.0 boot p.1.1) (zip neighbours.now keys.now)) }
{
    let links = neighbours
        .iter()
        .zip(keys.iter())
        .map(|(neighbour, key)| Link::new(me, neighbour.0, boot, key.1))
        .collect(alloc)?;
    Ok(links)
}
