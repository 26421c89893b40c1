// What a daemon of a configuration starts with.
ghost use Rattle.std.specs.Prelude.{◌≡◌, ◌≤◌, ◌<◌, ◌^◌, IfOk, length};
ghost use Rattle.sp_hss.specs.KeyTree.{total};
ghost use Rattle.sp_outside.specs.declared.wire.TheConstants.{DATAGRAM_BYTES};
ghost use Rattle.sp_service.specs.Served.{ports_of};
ghost use Rattle.sp_service.specs.Fits.{Fits};
ghost use Rattle.sp_service.specs.NodeParts.{peers_of};
ghost use Rattle.sp_sign.specs.Heights.{param_of};
ghost use Rattle.sp_topology.specs.Ranges.{IsTopology};

use crate::node_parts::peers_of;
use sp_base::Memory;
use sp_config::Config;
use sp_outside::DATAGRAM_BYTES;
use sp_service_turns::{Peer, Ports};
use sp_topology::{LmsHeight, Topology};
use std::alloc::{AllocError, Global};

/// How many messages a key of two levels of this height signs.
pub fn total(height: LmsHeight) -> u64
    ensures { result ≡ total (param_of height) }
{
    match height {
        LmsHeight::Five => 1 << 10,
        LmsHeight::Ten => 1 << 20,
    }
}

/// The two ports of a daemon.
pub fn ports_of(config: &Config) -> Ports
    ensures { result ≡ ports_of config.now }
{
    Ports {
        overlay: config.port,
        client: config.client_port,
    }
}

/// The neighbours, each with its port.
#[tactic(auto, using(crate::proofs::Openings::few_read))]
pub fn neighbours_at(
    alloc: Global,
    config: &Config,
    _topology: &Topology,
) -> Result<Vec<Peer>, Memory>
    requires fits { Fits config.now _topology.now }
    requires topology { IsTopology _topology.now }
    ensures peers { IfOk result (λ peers. peers.items ≡ peers_of config.now) }
    ensures few { IfOk result (λ peers. length peers.items < 2 ^ 16) }
{
    let peers = peers_of(alloc, config)?;
    Ok(peers)
}

/// Room for the longest datagram.
pub fn room(alloc: Global) -> Result<Vec<u8>, AllocError>
    ensures { IfOk result (λ buffer. DATAGRAM_BYTES ≤ length buffer.items) }
{
    vec![in alloc; 0u8; DATAGRAM_BYTES]
}
