// What a configuration that fits makes of a node.
ghost use Rattle.std.specs.Prelude.{◌≡◌, ◌≤◌, IfOk};
ghost use Rattle.sp_hss.specs.KeyTree.{total};
ghost use Rattle.sp_service.specs.NodeParts.{link_keys, peers_of};
ghost use Rattle.sp_topology.specs.Ranges.{IsTopology};

use sp_base::{EdgeId, Memory, NodeId};
use sp_config::Config;
use sp_hss::{SeedKey, Signer};
use sp_service_turns::Peer;
use sp_sign::NodeSigner;
use sp_topology::Topology;
use std::alloc::Global;

/// The signer that the key of the configuration's seed becomes, which signs with the indexes from `index` on and below `bound`.
pub fn node_signer(
    alloc: Global,
    node: NodeId,
    key: SeedKey,
    index: u64,
    bound: u64,
) -> Result<NodeSigner, Memory>
    requires ordered { index ≤ bound }
    requires within { bound ≤ total key.height }
    ensures { IfOk result (λ signer. signer ≡ record {
      node = node;
      signer = record { height = key.height; seed = key.seed; index = index; bound = bound };
    }) }
{
    match Signer::of(alloc, key, index, bound) {
        Ok(signer) => Ok(NodeSigner::new(node, signer)),
        Err(_) => Err(Memory),
    }
}

/// Each edge of the node, ascending, with the key that it shares with the peer there.
pub fn link_keys(
    alloc: Global,
    config: &Config,
    topology: &Topology,
) -> Result<Vec<(EdgeId, [u8; 32])>, Memory>
    requires { IsTopology topology.now }
    ensures { IfOk result (λ keys. keys.items ≡ link_keys config.now topology.now) }
{
    let Ok(neighbours) = topology.neighbours(alloc, config.node) else {
        return Err(Memory);
    };
    let keys = neighbours
        .iter()
        .zip(config.peers.as_slice().iter())
        .map(|(neighbour, peer)| (neighbour.1, peer.key))
        .collect(alloc)?;
    Ok(keys)
}

/// The neighbours, each with its port.
pub fn peers_of(alloc: Global, config: &Config) -> Result<Vec<Peer>, Memory>
    ensures { IfOk result (λ peers. peers.items ≡ peers_of config.now) }
{
    let peers = config
        .peers
        .as_slice()
        .iter()
        .map(|peer| Peer {
            node: peer.id,
            port: peer.port,
        })
        .collect(alloc)?;
    Ok(peers)
}
