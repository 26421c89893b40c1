// A draft: what an administrator makes a signed topology of.
ghost use Rattle.std.specs.Prelude.{◌≡◌, IfOk, codes, map};
ghost use Rattle.toml.specs.View.{items_view, table_view};
ghost use Rattle.sp_config.specs.Good.{AreGood, IsGood};
ghost use Rattle.sp_config.specs.Keys.{draft_keys, edge_keys, node_keys};
ghost use Rattle.sp_config.specs.Readings.{GivesInMemory, as_edge, draft_from, draft_in, draft_of, draft_ranges, edge_of, fault_of, format_in};
ghost use Rattle.sp_config.specs.Readings.{height_in, node_of, unless};
ghost use Rattle.sp_config.specs.Values.{bytes_at, number_at, tables_at, tables_of};

use crate::ConfigRefused;
use crate::digits::seed_of;
use crate::keys::{Form, Ranges};
use crate::steps::{refuse, refuse_keys, table_of, total};
use crate::values::{array_at, byte_at, number_at, text_at, word_at};
use crate::walks::Wrong;
use sp_base::{FORMAT_1, FORMAT_2, Listed, Memory, NodeId};
use sp_topology::{Edge, LmsHeight, first_fault};
use std::alloc::Global;
use toml::{Table, Value};

/// The topology that an administrator wants, with the seeds of the nodes and the administrator's own seed and next index.
/// A debug line says no seed.
#[derive(Drop)]
pub struct Draft {
    /// The format of the document that it gives, 1 where it isn't said.
    pub format: u8,
    pub version: u32,
    pub height: LmsHeight,
    pub admin_seed: [u8; 32],
    pub admin_index: u64,
    pub nodes: Listed<DraftNode>,
    pub edges: Listed<DraftEdge>,
}

/// A node with its seed, which no debug line says.
#[derive(Clone, Copy, PartialEq, Eq)]
pub struct DraftNode {
    pub id: NodeId,
    pub seed: [u8; 32],
}

#[derive(Clone, Copy, Debug, PartialEq, Eq)]
pub struct DraftEdge {
    pub a: u8,
    pub b: u8,
    pub weight: u32,
}

/// The draft that the text says, or the first refusal in the order of `ConfigRefused`.
pub fn read_draft(alloc: Global, text: &str) -> Result<Draft, ConfigRefused>
    ensures { GivesInMemory (λ draft. draft) result (draft_of text.now) }
{
    let table = table_of(alloc, text)?;
    draft_in(alloc, &table)
}

#[tactic(auto, unfolding(crate::specs::Readings::draft_in))]
fn draft_in(alloc: Global, table: &Table) -> Result<Draft, ConfigRefused>
    ensures { GivesInMemory (λ draft. draft) result (draft_in (table_view table.now)) }
{
    refuse_keys(alloc, Form::Draft, table)?;
    let ranges = draft_ranges(table);
    refuse(alloc, Wrong::Range(ranges), Form::Draft, table)?;
    let draft = draft_from(alloc, ranges, table)?;
    refuse_graph(alloc, &draft)?;
    Ok(draft)
}

/// What a draft says of the ranges in it: its format, and the last index of its administrator's key.
fn draft_ranges(table: &Table) -> Ranges
    ensures { result ≡ draft_ranges (table_view table.now) }
{
    Ranges {
        format: format_in(table),
        index: total(height_in(table)) - 1,
    }
}

/// The format that a draft says, 1 where it says none. That of one whose format is out of range doesn't count.
fn format_in(table: &Table) -> u8
    ensures { result ≡ format_in (table_view table.now) }
{
    if number_at(table, "format") == u64::from(FORMAT_2) {
        FORMAT_2
    } else {
        FORMAT_1
    }
}

/// The height that a draft says. That of one whose height is out of range doesn't count.
fn height_in(table: &Table) -> LmsHeight
    ensures { result ≡ height_in (table_view table.now) }
{
    match number_at(table, "height") {
        10 => LmsHeight::Ten,
        _ => LmsHeight::Five,
    }
}

/// The values of a good table.
#[tactic(auto, unfolding(crate::specs::Good::IsGood))]
fn draft_from(alloc: Global, ranges: Ranges, table: &Table) -> Result<Draft, Memory>
    requires good { IsGood draft_keys ranges (table_view table.now) }
    requires nodes { AreGood node_keys ranges (tables_at (codes "node") (table_view table.now)) }
    requires edges { AreGood edge_keys ranges (tables_at (codes "edge") (table_view table.now)) }
    ensures { IfOk result (λ draft. draft ≡ draft_from (table_view table.now)) }
{
    let nodes = nodes_of(alloc, ranges, array_at(table, "node"))?;
    let edges = edges_of(alloc, ranges, array_at(table, "edge"))?;
    let version = word_at(table, "version");
    let admin_seed = seed_of(text_at(table, "admin_seed"));
    Ok(Draft {
        format: format_in(table),
        version,
        height: height_in(table),
        admin_seed,
        admin_index: number_at(table, "admin_index"),
        nodes: Listed::from_vec(nodes),
        edges: Listed::from_vec(edges),
    })
}

/// Each of these tables as a node.
fn nodes_of(alloc: Global, ranges: Ranges, values: &[Value]) -> Result<Vec<DraftNode>, Memory>
    requires { AreGood node_keys ranges (tables_of (items_view values.now)) }
    ensures { IfOk result (λ nodes. nodes.items ≡ map node_of (tables_of (items_view values.now))) }
{
    let mut nodes = Vec::new(alloc);
    'nodes: for value in values {
        if let Some(inside) = value.as_table() {
            nodes.push(node_of(ranges, inside))?;
        }
    }
    Ok(nodes)
}

#[tactic(auto, unfolding(crate::specs::Good::IsGood))]
fn node_of(ranges: Ranges, table: &Table) -> DraftNode
    requires { IsGood node_keys ranges (table_view table.now) }
    ensures { result ≡ node_of (table_view table.now) }
{
    let id = NodeId(byte_at(table, "id"));
    let seed = seed_of(text_at(table, "seed"));
    DraftNode { id, seed }
}

/// Each of these tables as an edge.
fn edges_of(alloc: Global, ranges: Ranges, values: &[Value]) -> Result<Vec<DraftEdge>, Memory>
    requires { AreGood edge_keys ranges (tables_of (items_view values.now)) }
    ensures { IfOk result (λ edges. edges.items ≡ map edge_of (tables_of (items_view values.now))) }
{
    let mut edges = Vec::new(alloc);
    'edges: for value in values {
        if let Some(inside) = value.as_table() {
            edges.push(edge_of(ranges, inside))?;
        }
    }
    Ok(edges)
}

#[tactic(auto, unfolding(crate::specs::Good::IsGood))]
fn edge_of(ranges: Ranges, table: &Table) -> DraftEdge
    requires { IsGood edge_keys ranges (table_view table.now) }
    ensures { result ≡ edge_of (table_view table.now) }
{
    let a = byte_at(table, "a");
    let b = byte_at(table, "b");
    let weight = word_at(table, "weight");
    DraftEdge { a, b, weight }
}

/// Refuses the first fault of the document that the draft would give.
#[tactic(auto, using(crate::proofs::GraphLemmas::ids_of_nodes))]
fn refuse_graph(alloc: Global, draft: &Draft) -> Result<(), ConfigRefused>
    ensures { GivesInMemory (λ none. none) result (unless ConfigRefused.Topology (fault_of draft.now)) }
{
    let ids = ids_of(alloc, draft.nodes.as_slice())?;
    let links = links_of(alloc, draft.edges.as_slice())?;
    match first_fault(draft.format, &ids, &links) {
        Some(fault) => Err(ConfigRefused::Topology(fault)),
        None => Ok(()),
    }
}

fn ids_of(alloc: Global, nodes: &[DraftNode]) -> Result<Vec<NodeId>, Memory>
    ensures { IfOk result (λ ids. ids.items ≡ map (λ node. node.id) nodes.now) }
{
    Ok(nodes.iter().map(|node| node.id).collect(alloc)?)
}

/// Each edge as a document has it.
pub fn links_of(alloc: Global, edges: &[DraftEdge]) -> Result<Vec<Edge>, Memory>
    ensures { IfOk result (λ links. links.items ≡ map as_edge edges.now) }
{
    let mut links = Vec::new(alloc);
    'edges: for edge in edges {
        links.push(Edge {
            low: NodeId(edge.a),
            high: NodeId(edge.b),
            weight: edge.weight,
        })?;
    }
    Ok(links)
}
