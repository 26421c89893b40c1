// The judgements on a configuration, in their order.
ghost use Rattle.std.specs.Prelude.{◌≡◌, ◌≤◌, ◌↔◌, IfErr, IfOk, IsTrue, Ok as Read, drop, length, take};
ghost use Rattle.sp_hss.specs.Validity.{IsValid};
ghost use Rattle.sp_service.specs.Fits.{ArePeers, Fits, IsSigned, Misfits};
ghost use Rattle.sp_service.specs.KeyFaults.{IsKeyFault};
ghost use Rattle.sp_service.specs.NodeParts.{IsKeyOf};
ghost use Rattle.sp_topology.specs.Documents.{read_of};
ghost use Rattle.sp_topology.specs.Ranges.{IsTopology};

use crate::SetupRefused;
use crate::peers::{are_neighbours, have_own_ports};
use sp_base::Memory;
use sp_config::Config;
use sp_hss::SeedKey;
use sp_sign::{check_topology, param_of};
use sp_topology::{Topology, TopologyRefused};
use std::alloc::Global;

/// The topology that a configuration fits, and the key of its seed there, whose upper tree is hashed once.
#[derive(Drop)]
pub struct Fitted {
    pub topology: Topology,
    pub key: SeedKey,
}

/// What the configuration fits. Else the first judgement that it fails, in the order of `SetupRefused`.
pub fn judge(alloc: Global, config: &Config) -> Result<Fitted, SetupRefused>
    ensures fits { IfOk result (λ fitted. Fits config.now fitted.topology) }
    ensures ranges { IfOk result (λ fitted. IsTopology fitted.topology) }
    ensures key { IfOk result (λ fitted. IsKeyOf config.now fitted.topology.height fitted.key) }
    ensures refused { IfErr result (Misfits config.now) }
{
    let (topology, size) = read(alloc, config)?;
    if !is_signed(config, size) {
        return Err(SetupRefused::Signature);
    }
    let key = own_key(alloc, config, &topology)?;
    if let Some(fault) = key_fault(config, &topology, &key) {
        return Err(fault);
    }
    if !are_peers(alloc, config, &topology)? {
        return Err(SetupRefused::Peer);
    }
    Ok(Fitted { topology, key })
}

/// The topology, and the bytes of its document.
#[tactic(auto, using(crate::proofs::Sizes::size_is_within))]
fn read(alloc: Global, config: &Config) -> Result<(Topology, usize), SetupRefused>
    ensures read { IfOk result (λ read. read_of config.now.topology ≡ Read read) }
    ensures within { IfOk result (λ read. read.1 ≤ length config.now.topology) }
    ensures ranges { IfOk result (λ read. IsTopology read.0) }
    ensures refused { IfErr result (Misfits config.now) }
{
    match Topology::read(alloc, config.topology.as_slice()) {
        Ok(read) => Ok(read),
        Err(TopologyRefused::Memory) => Err(SetupRefused::Memory),
        Err(fault) => Err(SetupRefused::Document(fault)),
    }
}

/// Whether the bytes after the document are the administrator's signature of it.
fn is_signed(config: &Config, size: usize) -> bool
    requires { size ≤ length config.now.topology }
    ensures { IsTrue result ↔ IsSigned config.now size }
{
    is_signed_at(&config.admin, config.topology.as_slice(), size)
}

/// Whether what comes after the first bytes is the administrator's signature of them.
fn is_signed_at(admin: &[u8; 60], bytes: &[u8], size: usize) -> bool
    requires { size ≤ length bytes.now }
    ensures { IsTrue result ↔ IsValid admin.now (take size bytes.now) (drop size bytes.now) }
{
    check_topology(admin, &bytes[..size], &bytes[size..])
}

/// The key of the configuration's seed, at the height of the topology.
fn own_key(alloc: Global, config: &Config, topology: &Topology) -> Result<SeedKey, Memory>
    ensures { IfOk result (λ key. IsKeyOf config.now topology.now.height key) }
{
    match SeedKey::make(alloc, param_of(topology.height), config.seed) {
        Ok(key) => Ok(key),
        Err(_) => Err(Memory),
    }
}

/// What is wrong with the node's key in the document.
fn key_fault(config: &Config, topology: &Topology, key: &SeedKey) -> Option<SetupRefused>
    requires { IsKeyOf config.now topology.now.height key.now }
    ensures { IsKeyFault config.now topology.now result }
{
    let Some(known) = topology.key_of(config.node) else {
        return Some(SetupRefused::Me);
    };
    if *known == key.public() {
        None
    } else {
        Some(SetupRefused::Key)
    }
}

/// Whether the peers are just the neighbours, each at a port of its own.
fn are_peers(alloc: Global, config: &Config, topology: &Topology) -> Result<bool, Memory>
    requires { IsTopology topology.now }
    ensures { IfOk result (λ are. IsTrue are ↔ ArePeers config.now topology.now) }
{
    let Ok(neighbours) = topology.neighbours(alloc, config.node) else {
        return Err(Memory);
    };
    let peers = config.peers.as_slice();
    Ok(are_neighbours(peers, &neighbours) && have_own_ports(peers))
}
