// What is wrong with a node, with an edge, and with a whole graph.
ghost use Rattle.std.specs.Prelude.{◌≡◌, ◌≢◌, ◌≤◌, ◌==◌, length, map};
ghost use Rattle.std.specs.List.{list_any};
ghost use Rattle.sp_topology.specs.Faults.{are_nodes, edge_count_fault, edges_fault, ends_fault, graph_fault, id_fault, ids_fault};
ghost use Rattle.sp_topology.specs.Faults.{key_fault, node_count_fault, weight_fault};
ghost use Rattle.sp_topology.specs.Ranges.{ends_of, has_id, least_weight};

use crate::{Edge, LmsHeight, TopologyRefused};
use byteorder::{BigEndian, ByteOrder};
use sp_base::{FORMAT_1, MAX_WEIGHT, NodeId, max_edges, max_nodes};

/// The levels of a node's key.
const LEVELS: u32 = 2;

/// The typecode of one-time signatures with w = 4 (RFC 8554, section 4.1).
const ONE_TIME: u32 = 3;

/// The first fault of these nodes and edges in a format, in the order of the document: `TooFew` or `TooMany`; of each node `Order` and `Twice`;
/// `TooMany`; of each edge `Loop`, `Order`, `Twice`, `Unknown` and `Weight`. It takes no memory.
pub fn first_fault(format: u8, nodes: &[NodeId], edges: &[Edge]) -> Option<TopologyRefused>
    ensures fault { result ≡ graph_fault format (map (λ id. id.0) nodes.now) edges.now }
    ensures memory { result ≢ Some TopologyRefused.Memory }
{
    if let Some(fault) = node_count_fault(format, nodes.len()) {
        return Some(fault);
    }
    if let Some(fault) = ids_fault(format, nodes) {
        return Some(fault);
    }
    if let Some(fault) = edge_count_fault(format, edges.len()) {
        return Some(fault);
    }
    edges_fault(format, nodes, edges)
}

pub fn node_count_fault(format: u8, count: usize) -> Option<TopologyRefused>
    ensures { result ≡ node_count_fault format count }
{
    if count < 2 {
        Some(TopologyRefused::TooFew)
    } else if count > usize::from(max_nodes(format)) {
        Some(TopologyRefused::TooMany)
    } else {
        None
    }
}

pub fn edge_count_fault(format: u8, count: usize) -> Option<TopologyRefused>
    ensures { result ≡ edge_count_fault format count }
{
    if count > usize::from(max_edges(format)) {
        Some(TopologyRefused::TooMany)
    } else {
        None
    }
}

/// What is wrong with the id of a node after the one before it; 0 stands before the first.
pub fn id_fault(format: u8, before: u8, id: u8) -> Option<TopologyRefused>
    ensures { result ≡ id_fault format before id }
{
    if id < 1 || id > max_nodes(format) || id < before {
        Some(TopologyRefused::Order)
    } else if id == before {
        Some(TopologyRefused::Twice)
    } else {
        None
    }
}

/// What is wrong with the key of a node.
pub fn key_fault(height: LmsHeight, key: &[u8]) -> Option<TopologyRefused>
    requires { length key.now ≡ 60 }
    ensures { result ≡ key_fault height key.now }
{
    let levels = BigEndian::read_u32(key);
    let tree = BigEndian::read_u32(&key[4..]);
    let one_time = BigEndian::read_u32(&key[8..]);
    if levels == LEVELS && tree == height.typecode() && one_time == ONE_TIME {
        None
    } else {
        Some(TopologyRefused::Key)
    }
}

/// What is wrong with the ends of an edge, where it is known whether both are nodes, after the ends of the one before it;
/// (0, 0) stands before the first.
pub fn ends_fault(are_nodes: bool, before: (u8, u8), ends: (u8, u8)) -> Option<TopologyRefused>
    ensures { result ≡ ends_fault are_nodes before ends }
{
    if ends.0 == ends.1 {
        Some(TopologyRefused::Loop)
    } else if ends.0 > ends.1 || ends < before {
        Some(TopologyRefused::Order)
    } else if ends == before {
        Some(TopologyRefused::Twice)
    } else if are_nodes {
        None
    } else {
        Some(TopologyRefused::Unknown)
    }
}

/// The least weight of an edge.
fn least_weight(format: u8) -> u32
    ensures { result ≡ least_weight format }
{
    if format == FORMAT_1 { 1 } else { 0 }
}

pub fn weight_fault(format: u8, weight: u32) -> Option<TopologyRefused>
    ensures { result ≡ weight_fault format weight }
{
    if weight >= least_weight(format) && weight <= MAX_WEIGHT {
        None
    } else {
        Some(TopologyRefused::Weight)
    }
}

/// The first fault of the ids of these nodes.
fn ids_fault(format: u8, nodes: &[NodeId]) -> Option<TopologyRefused>
    ensures { result ≡ ids_fault format 0 (map (λ id. id.0) nodes.now) }
{
    let mut before = 0;
    'nodes: for id in nodes {
        if let Some(fault) = id_fault(format, before, id.0) {
            return Some(fault);
        }
        before = id.0;
    }
    None
}

/// The first fault of these edges between the nodes.
fn edges_fault(format: u8, nodes: &[NodeId], edges: &[Edge]) -> Option<TopologyRefused>
    ensures { result ≡ edges_fault format (map (λ id. id.0) nodes.now) (0, 0) edges.now }
{
    let mut before = (0, 0);
    'edges: for edge in edges {
        let ends = (edge.low.0, edge.high.0);
        let are_nodes = has_id(ends.0, nodes) && has_id(ends.1, nodes);
        if let Some(fault) = ends_fault(are_nodes, before, ends) {
            return Some(fault);
        }
        if let Some(fault) = weight_fault(format, edge.weight) {
            return Some(fault);
        }
        before = ends;
    }
    None
}

/// Whether one of the nodes has this id.
fn has_id(id: u8, nodes: &[NodeId]) -> bool
    ensures { result ≡ has_id id (map (λ n. n.0) nodes.now) }
{
    nodes.iter().map(|node| node.0).any(|known| known == id)
}
