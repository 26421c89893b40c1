// The administrator of a scenario, and the documents of its topology.
ghost use Rattle.std.specs.Prelude.{◌≡◌, ◌≤◌, ◌<◌, IfOk, map, zip};
ghost use Rattle.sp_adversary.specs.Documents.{administrator_of, document_by, public_of, unsigned_by, version_by};
ghost use Rattle.sp_hss.specs.KeyTree.{signature, total};
ghost use Rattle.sp_rules.specs.Topologies.{weighted};
ghost use Rattle.sp_runs.specs.Scenarios.{topology_of};
ghost use Rattle.sp_topology.specs.Ranges.{IsTopology};

use crate::keys::admin_seed;
use sp_base::{Bytes, FORMAT_1, Listed, Memory};
use sp_hss::{SeedKey, Signer};
use sp_schedule_events::Scenario;
use sp_sign::param_of;
use sp_topology::{Edge, NodeKey, Topology};
use std::alloc::Global;
use std::marker::Model;

/// The version of a scenario's own topology.
const FIRST_VERSION: u32 = 1;

/// Who signs each version of a scenario's topology with the index before the version. The index is set by the version, and not counted: so a version with
/// these weights has one document, however often it is asked for.
///
/// A contract sees the first topology and the administrator's key.
#[derive(Drop)]
pub struct Administrator {
    topology: Topology,
    key: SeedKey,
}

impl Model for Administrator {
    ghost use Rattle.sp_adversary.specs.Administrators as administrators;

    ghost Value = { administrators.Administrator };

    ghost view = { λ a. record { topology = a.topology; key = a.key } };
}

impl Administrator {
    /// That of a scenario whose nodes have these public keys. It costs a tree. Only want of memory refuses.
    pub fn new(
        alloc: Global,
        scenario: &Scenario,
        keys: &[NodeKey],
    ) -> Result<Administrator, Memory>
        requires { keys.now ≡ (topology_of scenario.now).nodes }
        ensures { IfOk result (λ administrator. administrator ≡ administrator_of scenario.now) }
    {
        let topology = Topology {
            format: scenario.format,
            version: FIRST_VERSION,
            height: scenario.height,
            nodes: copied(alloc, keys)?,
            edges: copied(alloc, scenario.graph.edges.as_slice())?,
        };
        match SeedKey::make(alloc, param_of(scenario.height), admin_seed(&scenario.seed)) {
            Ok(key) => Ok(Administrator { topology, key }),
            Err(_) => Err(Memory),
        }
    }

    /// The administrator's public key.
    pub fn public(&self) -> [u8; 60]
        ensures { result ≡ public_of self.now }
    {
        self.key.public()
    }

    /// The first topology once more.
    pub fn topology(&self, alloc: Global) -> Result<Topology, Memory>
        ensures { IfOk result (λ topology. topology ≡ self.now.topology) }
    {
        let edges = copied(alloc, self.topology.edges.as_slice())?;
        self.with_edges(alloc, self.topology.version, edges)
    }

    /// The bytes of a version with these weights. Only want of memory refuses.
    pub fn unsigned(&self, alloc: Global, version: u32, weights: &[u32]) -> Result<Bytes, Memory>
        requires { IsTopology (version_by self.now version weights.now) }
        ensures { IfOk result (λ bytes. bytes ≡ unsigned_by self.now version weights.now) }
    {
        let edges = weighted(alloc, self.topology.edges.as_slice(), weights)?;
        let topology = self.with_edges(alloc, version, Listed::from_vec(edges))?;
        match topology.write(alloc) {
            Ok(bytes) => Ok(bytes),
            Err(_) => Err(Memory),
        }
    }

    /// The document of a version with these weights: in format 2 the administrator's signature is behind its bytes. It costs about a tree.
    /// Only want of memory refuses.
    pub fn document(&self, alloc: Global, version: u32, weights: &[u32]) -> Result<Bytes, Memory>
        requires topology { IsTopology (version_by self.now version weights.now) }
        requires some { 1 ≤ version }
        requires most { version ≤ total self.now.key.height }
        ensures { IfOk result (λ bytes. bytes ≡ document_by self.now version weights.now) }
    {
        let bytes = self.unsigned(alloc, version, weights)?;
        if self.topology.format == FORMAT_1 {
            return Ok(bytes);
        }
        let signature = self.signature(alloc, u64::from(version) - 1, bytes.as_slice())?;
        let mut signed = bytes.into_vec();
        signed.extend_from_slice(signature.as_slice())?;
        Ok(Bytes::from_vec(signed))
    }

    /// The topology with another version and these edges.
    fn with_edges(
        &self,
        alloc: Global,
        version: u32,
        edges: Listed<Edge>,
    ) -> Result<Topology, Memory>
        ensures { IfOk result (λ topology. topology ≡ record self.now.topology { version = version; edges = edges }) }
    {
        Ok(Topology {
            format: self.topology.format,
            version,
            height: self.topology.height,
            nodes: copied(alloc, self.topology.nodes.as_slice())?,
            edges,
        })
    }

    /// The key's signature with this index.
    fn signature(&self, alloc: Global, index: u64, message: &[u8]) -> Result<Bytes, Memory>
        requires { index < total self.now.key.height }
        ensures { IfOk result (λ bytes. bytes ≡ signature self.now.key.height self.now.key.seed index message.now) }
    {
        let Ok(key) = self.key.copied(alloc) else {
            return Err(Memory);
        };
        let Ok(mut signer) = Signer::of(alloc, key, index, index + 1) else {
            return Err(Memory);
        };
        let mut signature = vec![in alloc; 0u8; signer.signature_len()]?;
        let Ok(()) = signer.sign(message, signature.as_mut_slice()) else {
            unreachable!();
        };
        Ok(Bytes::from_vec(signature))
    }
}

/// The values once more.
fn copied<T: Copy>(alloc: Global, items: &[T]) -> Result<Listed<T>, Memory>
    ensures { IfOk result (λ copied. copied ≡ items.now) }
{
    Ok(Listed::from_vec(Vec::from_slice(alloc, items)?))
}

/// The edges with these weights.
fn weighted(alloc: Global, edges: &[Edge], weights: &[u32]) -> Result<Vec<Edge>, Memory>
    ensures { IfOk result (λ done. done.items ≡ map weighted (zip edges.now weights.now)) }
{
    let weighted = edges
        .iter()
        .zip(weights.iter())
        .map(|(edge, weight)| with_weight(edge, *weight))
        .collect(alloc)?;
    Ok(weighted)
}

fn with_weight(edge: &Edge, weight: u32) -> Edge
    ensures { result ≡ weighted (edge.now, weight) }
{
    Edge { weight, ..*edge }
}
