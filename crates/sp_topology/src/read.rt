// A topology read from its document, from the left.
ghost use Rattle.std.specs.Prelude.{IfOk, ◌≡◌, ◌-◌, ◌==◌, length, map};
ghost use Rattle.std.specs.List.{list_any};
ghost use Rattle.sp_base.specs.Refusals.{Gives};
ghost use Rattle.sp_topology.specs.Documents.{GivesInMemory, edge_at, edges_at, front_at, judged_at, node_at, nodes_at, read_of};
ghost use Rattle.sp_topology.specs.Faults.{edge_count_fault};
ghost use Rattle.sp_topology.specs.Ranges.{IsTopology, has_id, ids_of};

use crate::document::{KEY_BYTES, NAME};
use crate::fault::{
    edge_count_fault, ends_fault, id_fault, key_fault, node_count_fault, weight_fault,
};
use crate::{Edge, LmsHeight, NodeKey, Topology, TopologyRefused};
use sp_base::{FORMAT_1, FORMAT_2, Listed, Memory, NodeId, Reader, push};
use std::alloc::Global;

impl Topology {
    /// The topology whose document the bytes begin with, and how many bytes the document has.
    /// What is wrong is told from the left: `Short`, `Magic`, `Format`, `Height`, `TooFew` and `TooMany`; of each node `Order`, `Twice`
    /// and `Key`; `TooMany`; of each edge `Loop`, `Order`, `Twice`, `Unknown` and `Weight`; and `Short` wherever a field is missing.
    #[tactic(auto, unfolding(crate::specs::Documents::topology_at))]
    pub fn read(alloc: Global, bytes: &[u8]) -> Result<(Topology, usize), TopologyRefused>
        ensures read { GivesInMemory (λ p. p) result (read_of bytes.now) }
        ensures ranges { IfOk result (λ read. IsTopology read.0) }
    {
        let mut reader = Reader::new(bytes);
        let front = read_front(&mut reader)?;
        let nodes = read_nodes(alloc, &mut reader, front.format, front.height, front.count)?;
        let count = read_edge_count(&mut reader, front.format)?;
        let edges = read_edges(alloc, &mut reader, front.format, nodes.as_slice(), count)?;
        let topology = Topology {
            format: front.format,
            version: front.version,
            height: front.height,
            nodes: Listed::from_vec(nodes),
            edges: Listed::from_vec(edges),
        };
        Ok((topology, bytes.len() - reader.left()))
    }
}

/// What stands before the nodes.
#[derive(Clone, Copy)]
struct Front {
    format: u8,
    version: u32,
    height: LmsHeight,
    count: u8,
}

#[tactic(auto, unfolding(crate::specs::Documents::front_at, crate::specs::Documents::judged_at, crate::specs::Documents::height_field_at))]
fn read_front(reader: &mut Reader<'_>) -> Result<Front, TopologyRefused>
    ensures { Gives (λ f. (record { format = f.format; version = f.version; height = f.height; count = f.count }, reader.new)) result (front_at reader.old) }
{
    if reader.u32()? != NAME {
        return Err(TopologyRefused::Magic);
    }
    let format = reader.u8()?;
    if format != FORMAT_1 && format != FORMAT_2 {
        return Err(TopologyRefused::Format);
    }
    let version = reader.u32()?;
    let Some(height) = LmsHeight::from_number(reader.u8()?) else {
        return Err(TopologyRefused::Height);
    };
    let count = reader.u8()?;
    if let Some(fault) = node_count_fault(format, count as usize) {
        return Err(fault);
    }
    Ok(Front {
        format,
        version,
        height,
        count,
    })
}

/// So many nodes.
fn read_nodes(
    alloc: Global,
    reader: &mut Reader<'_>,
    format: u8,
    height: LmsHeight,
    count: u8,
) -> Result<Vec<NodeKey>, TopologyRefused>
    ensures { GivesInMemory (λ nodes. (nodes.items, reader.new)) result (nodes_at format height count 0 reader.old) }
{
    let mut nodes = Vec::with_capacity(alloc, count as usize).map_err(Memory::from)?;
    let mut before = 0;
    'nodes: for _done in 0..count {
        let node = read_node(reader, format, height, before)?;
        before = node.id.0;
        push(&mut nodes, node)?;
    }
    Ok(nodes)
}

/// A node after one of this id.
#[tactic(auto, unfolding(crate::specs::Documents::node_at, crate::specs::Documents::judged_at, crate::specs::Documents::key_at))]
fn read_node(
    reader: &mut Reader<'_>,
    format: u8,
    height: LmsHeight,
    before: u8,
) -> Result<NodeKey, TopologyRefused>
    ensures { Gives (λ n. (n, reader.new)) result (node_at format height before reader.old) }
{
    let id = reader.u8()?;
    if let Some(fault) = id_fault(format, before, id) {
        return Err(fault);
    }
    let piece = reader.take(KEY_BYTES)?;
    if let Some(fault) = key_fault(height, piece) {
        return Err(fault);
    }
    let mut key = [0; KEY_BYTES];
    key.copy_from_slice(piece);
    Ok(NodeKey {
        id: NodeId(id),
        key,
    })
}

#[tactic(auto, unfolding(crate::specs::Documents::judged_at))]
fn read_edge_count(reader: &mut Reader<'_>, format: u8) -> Result<u16, TopologyRefused>
    ensures { Gives (λ count. (count, reader.new)) result (judged_at 2 (edge_count_fault format) reader.old) }
{
    let count = reader.u16()?;
    if let Some(fault) = edge_count_fault(format, count as usize) {
        return Err(fault);
    }
    Ok(count)
}

/// So many edges between these nodes.
fn read_edges(
    alloc: Global,
    reader: &mut Reader<'_>,
    format: u8,
    nodes: &[NodeKey],
    count: u16,
) -> Result<Vec<Edge>, TopologyRefused>
    ensures { GivesInMemory (λ edges. (edges.items, reader.new)) result (edges_at format (ids_of nodes.now) count (0, 0) reader.old) }
{
    let mut edges = Vec::with_capacity(alloc, count as usize).map_err(Memory::from)?;
    let mut before = (0, 0);
    'edges: for _done in 0..count {
        let edge = read_edge(reader, format, nodes, before)?;
        before = (edge.low.0, edge.high.0);
        push(&mut edges, edge)?;
    }
    Ok(edges)
}

/// An edge between these nodes, after one with these ends.
#[tactic(auto, unfolding(crate::specs::Documents::edge_at, crate::specs::Documents::judged_at, crate::specs::Documents::ends_at))]
fn read_edge(
    reader: &mut Reader<'_>,
    format: u8,
    nodes: &[NodeKey],
    before: (u8, u8),
) -> Result<Edge, TopologyRefused>
    ensures { Gives (λ e. (e, reader.new)) result (edge_at format (ids_of nodes.now) before reader.old) }
{
    let low = reader.u8()?;
    let high = reader.u8()?;
    let are_nodes = has_node(low, nodes) && has_node(high, nodes);
    if let Some(fault) = ends_fault(are_nodes, before, (low, high)) {
        return Err(fault);
    }
    let weight = reader.u32()?;
    if let Some(fault) = weight_fault(format, weight) {
        return Err(fault);
    }
    Ok(Edge {
        low: NodeId(low),
        high: NodeId(high),
        weight,
    })
}

/// Whether one of the nodes has this id.
fn has_node(id: u8, nodes: &[NodeKey]) -> bool
    ensures { result ≡ has_id id (ids_of nodes.now) }
{
    nodes.iter().map(|node| node.id.0).any(|known| known == id)
}
