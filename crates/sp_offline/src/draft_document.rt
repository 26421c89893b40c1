// The document of a draft: each node with the public key of its seed.
ghost use Rattle.std.specs.Prelude.{◌≡◌, ◌<◌, ◌^◌, All, IfOk, length, map};
ghost use Rattle.sp_hss.specs.KeyTree.{public_key};
ghost use Rattle.sp_topology.specs.Documents.{document};
ghost use Rattle.sp_topology.specs.Ranges.{IsKey};
ghost use Rattle.sp_offline.specs.SignedKeys.{IsGoodDraft};
ghost use Rattle.sp_offline.specs.SignedDrafts.{node_key, topology_of};
ghost use Rattle.sp_sign.specs.Heights.{param_of};

use sp_base::{Bytes, Listed, Memory, NodeId};
use sp_config::{Draft, DraftNode, links_of};
use sp_hss::public_key;
use sp_sign::param_of;
use sp_topology::{Edge, LmsHeight, NodeKey, Topology, a_graph_without_fault_is_in_range};
use std::alloc::Global;

/// The document of a draft that was read.
pub fn document_of(alloc: Global, draft: &Draft) -> Result<Bytes, Memory>
    requires { IsGoodDraft draft.now }
    ensures { IfOk result (λ bytes. bytes ≡ document (topology_of draft.now)) }
{
    a_graph_without_fault_is_in_range();
    let topology = topology_of(alloc, draft)?;
    topology.write(alloc).map_err(|_| Memory)
}

/// The topology of a draft.
fn topology_of(alloc: Global, draft: &Draft) -> Result<Topology, Memory>
    ensures topology { IfOk result (λ topology. topology ≡ topology_of draft.now) }
    ensures version { IfOk result (λ topology. topology.version < 2 ^ 32) }
    ensures keys { IfOk result (λ topology. All (λ n. IsKey draft.now.height n.key) topology.nodes) }
{
    let nodes = keys_of(alloc, draft.height, draft.nodes.as_slice())?;
    let edges = links_of(alloc, draft.edges.as_slice())?;
    Ok(topology_with(draft.format, draft.version, draft.height, nodes, edges))
}

fn topology_with(
    format: u8,
    version: u32,
    height: LmsHeight,
    nodes: Vec<NodeKey>,
    edges: Vec<Edge>,
) -> Topology
    ensures topology { result ≡ record { format = format; version = version; height = height; nodes = nodes.items; edges = edges.items } }
    ensures small { result.version < 2 ^ 32 }
{
    Topology {
        format,
        version,
        height,
        nodes: Listed::from_vec(nodes),
        edges: Listed::from_vec(edges),
    }
}

/// Each node with the public key of its seed.
fn keys_of(alloc: Global, height: LmsHeight, nodes: &[DraftNode]) -> Result<Vec<NodeKey>, Memory>
    ensures keys { IfOk result (λ keys. keys.items ≡ map (node_key height) nodes.now) }
    ensures good { IfOk result (λ keys. All (λ n. IsKey height n.key) keys.items) }
{
    let mut keys = Vec::new(alloc);
    'nodes: for node in nodes {
        keys.push(key_of(alloc, height, node)?)?;
    }
    Ok(keys)
}

/// A node with the public key of its seed.
fn key_of(alloc: Global, height: LmsHeight, node: &DraftNode) -> Result<NodeKey, Memory>
    ensures key { IfOk result (λ key. key ≡ node_key height node.now) }
    ensures good { IfOk result (λ key. IsKey height key.key) }
{
    match public_key(alloc, param_of(height), &node.seed) {
        Ok(key) => {
            is_good_key(height, node, key.as_slice());
            Ok(NodeKey { id: node.id, key })
        }
        Err(_) => Err(Memory),
    }
}

/// A law: the key of a seed is one that a topology of this height may have.
fn is_good_key(_height: LmsHeight, _node: &DraftNode, key: &[u8])
    requires long { length key.now ≡ 60 }
    requires seed { key.now ≡ public_key (param_of _height) _node.now.seed }
    ensures { IsKey _height key.now }
{
    let _ = key.len();
}
