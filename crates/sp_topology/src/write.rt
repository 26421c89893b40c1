// The document of a topology, written.
ghost use Rattle.std.specs.Prelude.{◌≡◌, ◌≤◌, ◌++◌, IfErr, IfOk, OnOk, flat_map, length};
ghost use Rattle.byteorder.specs.Endian.{big_bytes};
ghost use Rattle.sp_base.specs.declared.limits.TheConstants.{MAX_NODES_2};
ghost use Rattle.sp_topology.specs.Documents.{document, edge_bytes, front_bytes, front_of, name, node_bytes};
ghost use Rattle.sp_topology.specs.Ranges.{IsTopology};

use crate::document::{EDGE_BYTES, FRONT_BYTES, NAME, NODE_BYTES};
use crate::{Edge, NodeKey, Topology, TopologyRefused};
use byteorder::{BigEndian, ByteOrder};
use sp_base::{Bytes, Listed, Memory};
use std::alloc::Global;

impl Topology {
    /// The document of the topology, which has no other. Only want of memory refuses.
    #[tactic(auto, using(sp_base::proofs::FormatLemmas::few_nodes, sp_base::proofs::FormatLemmas::few_edges))]
    pub fn write(&self, alloc: Global) -> Result<Bytes, TopologyRefused>
        requires { IsTopology self.now }
        ensures document { IfOk result (λ bytes. bytes ≡ document self.now) }
        ensures memory { IfErr result (λ refused. refused ≡ TopologyRefused.Memory) }
    {
        let nodes = self.nodes.as_slice();
        let edges = self.edges.as_slice();
        let room = FRONT_BYTES + nodes.len() * NODE_BYTES + 2 + edges.len() * EDGE_BYTES;
        let mut out = Vec::with_capacity(alloc, room).map_err(Memory::from)?;
        push_front(&mut out, self)?;
        push_nodes(&mut out, nodes)?;
        push_u16(&mut out, edges.len() as u16)?;
        push_edges(&mut out, edges)?;
        Ok(Listed::from_vec(out))
    }
}

fn push_front(out: &mut Vec<u8>, topology: &Topology) -> Result<(), Memory>
    requires { length topology.now.nodes ≤ MAX_NODES_2 }
    ensures { OnOk result (out.new.items ≡ out.old.items ++ front_bytes (front_of topology.now)) }
{
    push_start(out, topology)?;
    push_u8(out, topology.height.number())?;
    push_u8(out, topology.nodes.as_slice().len() as u8)
}

/// The name, the format and the version.
fn push_start(out: &mut Vec<u8>, topology: &Topology) -> Result<(), Memory>
    ensures { OnOk result (out.new.items ≡ out.old.items ++ (big_bytes 4 name ++ (big_bytes 1 topology.now.format ++ big_bytes 4 topology.now.version))) }
{
    push_u32(out, NAME)?;
    push_u8(out, topology.format)?;
    push_u32(out, topology.version)
}

fn push_nodes(out: &mut Vec<u8>, nodes: &[NodeKey]) -> Result<(), Memory>
    ensures { OnOk result (out.new.items ≡ out.old.items ++ flat_map node_bytes nodes.now) }
{
    'nodes: for node in nodes {
        push_u8(out, node.id.0)?;
        out.extend_from_slice(node.key.as_slice())?;
    }
    Ok(())
}

fn push_edges(out: &mut Vec<u8>, edges: &[Edge]) -> Result<(), Memory>
    ensures { OnOk result (out.new.items ≡ out.old.items ++ flat_map edge_bytes edges.now) }
{
    'edges: for edge in edges {
        push_u8(out, edge.low.0)?;
        push_u8(out, edge.high.0)?;
        push_u32(out, edge.weight)?;
    }
    Ok(())
}

fn push_u8(out: &mut Vec<u8>, n: u8) -> Result<(), Memory>
    ensures { OnOk result (out.new.items ≡ out.old.items ++ big_bytes 1 n) }
{
    Ok(out.push(n)?)
}

fn push_u16(out: &mut Vec<u8>, n: u16) -> Result<(), Memory>
    ensures { OnOk result (out.new.items ≡ out.old.items ++ big_bytes 2 n) }
{
    let mut piece = [0u8; 2];
    BigEndian::write_u16(&mut piece, n);
    Ok(out.extend_from_slice(piece.as_slice())?)
}

fn push_u32(out: &mut Vec<u8>, n: u32) -> Result<(), Memory>
    ensures { OnOk result (out.new.items ≡ out.old.items ++ big_bytes 4 n) }
{
    let mut piece = [0u8; 4];
    BigEndian::write_u32(&mut piece, n);
    Ok(out.extend_from_slice(piece.as_slice())?)
}
