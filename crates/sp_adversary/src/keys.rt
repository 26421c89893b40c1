// The keys that a scenario's seed makes: a signer for each node, a key for the tags over each edge, and the administrator's.
ghost use Rattle.std.specs.Prelude.{◌≡◌, ◌≤◌, ◌<◌, IfOk, IfSome, length, option_map, position};
ghost use Rattle.sp_adversary.specs.Keys.{whole_signer};
ghost use Rattle.sp_base.specs.declared.limits.TheConstants.{MAX_EDGES_2};
ghost use Rattle.sp_hss.specs.KeyTree.{signature_len};
ghost use Rattle.sp_runs.specs.Scenarios.{admin_seed, edge_key, node_seed};
ghost use Rattle.sp_sign.specs.Heights.{param_of};
ghost use Rattle.sp_topology.specs.Neighbours.{joins};

use sp_base::{EdgeId, Memory, NodeId};
use sp_hmac::tag;
use sp_hss::Signer;
use sp_schedule_events::Scenario;
use sp_sign::param_of;
use sp_topology::{Edge, LmsHeight};
use std::alloc::Global;

/// The seed of a node's key.
pub fn node_seed(seed: &[u8; 32], node: NodeId) -> [u8; 32]
    ensures { result ≡ node_seed seed.now node.0 }
{
    tag(seed, b"node", &[node.0])
}

/// The seed of the administrator's key.
pub fn admin_seed(seed: &[u8; 32]) -> [u8; 32]
    ensures { result ≡ admin_seed seed.now }
{
    tag(seed, &[], b"admin")
}

/// The bytes of a signature of this height.
pub fn signature_len(height: LmsHeight) -> usize
    ensures { result ≡ signature_len (param_of height) }
{
    match height {
        LmsHeight::Five => 4_756,
        LmsHeight::Ten => 5_076,
    }
}

/// The key of the tags over an edge.
#[tactic(auto, unfolding(sp_ots::specs::Strings::u16str))]
pub fn edge_key(seed: &[u8; 32], edge: EdgeId) -> [u8; 32]
    ensures { result ≡ edge_key seed.now edge.0 }
{
    tag(seed, b"link", &edge.0.to_be_bytes())
}

/// The edge between two nodes. None exactly where none joins them.
pub fn edge_between(edges: &[Edge], a: NodeId, b: NodeId) -> Option<EdgeId>
    requires { length edges.now ≤ MAX_EDGES_2 }
    ensures { result ≡ option_map (λ place. record { 0 = place }) (position (joins a.0 b.0) edges.now) }
{
    match place_between(edges, a, b) {
        Some(place) => Some(EdgeId(place as u16)),
        None => None,
    }
}

/// The signer of a node's key, with all its indexes and none of them used. Two whole trees are hashed.
pub fn signer_of(alloc: Global, scenario: &Scenario, node: NodeId) -> Result<Signer, Memory>
    ensures { IfOk result (λ signer. signer ≡ whole_signer scenario.now.height scenario.now.seed node) }
{
    whole_signer(alloc, scenario.height, &scenario.seed, node)
}

/// The same by the seed of all keys.
pub(crate) fn whole_signer(
    alloc: Global,
    height: LmsHeight,
    seed: &[u8; 32],
    node: NodeId,
) -> Result<Signer, Memory>
    ensures { IfOk result (λ signer. signer ≡ whole_signer height seed.now node) }
{
    let param = param_of(height);
    let leaves = u64::from(param.leaf_count());
    match Signer::make(alloc, param, node_seed(seed, node), 0, leaves * leaves) {
        Ok(signer) => Ok(signer),
        Err(_) => Err(Memory),
    }
}

/// The place of the edge between two nodes.
fn place_between(edges: &[Edge], a: NodeId, b: NodeId) -> Option<usize>
    ensures place { result ≡ position (joins a.0 b.0) edges.now }
    ensures within { IfSome result (λ place. place < length edges.now) }
{
    edges.iter().position(|edge| edge.joins(a, b))
}
