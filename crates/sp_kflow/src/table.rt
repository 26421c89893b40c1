// The flows on paths at one node, with the edge to each neighbour, and how many paths the last message to each node asked for.
ghost use Rattle.std.specs.Prelude.{◌≡◌, IfOk, map};
ghost use Rattle.sp_rules.specs.Kflow.{no_paths, start};
ghost use Rattle.sp_rules.specs.Rel as rel;

use sp_base::{Memory, NodeId};
use sp_rel::{RelRefused, RelTable};
use sp_rules::{Neighbour, PathsTo};
use std::alloc::Global;
use std::marker::Model;

/// The flows on paths at a node.
#[derive(Debug, Drop)]
pub struct KTable {
    /// The flows themselves. What arrives of them, and what clients take, is as of plain flows.
    pub flows: RelTable,
    /// The edge to each neighbour.
    pub(crate) edges: Vec<Neighbour>,
    pub(crate) paths: Vec<PathsTo>,
}

impl Model for KTable {
    ghost use Rattle.sp_rules.specs.Kflow.{KState};

    ghost Value = { KState };

    ghost view = { λ t. record { flows = t.flows; edges = t.edges.items; paths = t.paths.items } };
}

impl KTable {
    /// The table of a node among these, with these neighbours, that keeps at most `buffer` messages of each flow. No flow is active, and no memory of
    /// messages is taken. It is refused for want of memory alone.
    pub fn new(
        alloc: Global,
        me: NodeId,
        nodes: &[NodeId],
        neighbours: &[Neighbour],
        buffer: u16,
    ) -> Result<KTable, Memory>
        ensures table { IfOk result (λ table. table ≡ start me nodes.now neighbours.now buffer) }
    {
        let ids = ids_of(alloc, neighbours)?;
        Ok(KTable {
            flows: flows_at_start(alloc, me, nodes, ids.as_slice(), buffer)?,
            edges: Vec::from_slice(alloc, neighbours)?,
            paths: rows_of(alloc, nodes)?,
        })
    }
}

/// The flows of a node at its start.
fn flows_at_start(
    alloc: Global,
    me: NodeId,
    nodes: &[NodeId],
    neighbours: &[NodeId],
    buffer: u16,
) -> Result<RelTable, Memory>
    ensures { IfOk result (λ flows. flows ≡ rel.start me nodes.now neighbours.now buffer) }
{
    match RelTable::new(alloc, me, nodes, neighbours, buffer) {
        Ok(flows) => Ok(flows),
        Err(_) => Err(Memory),
    }
}

/// The neighbours without their edges.
fn ids_of(alloc: Global, neighbours: &[Neighbour]) -> Result<Vec<NodeId>, Memory>
    ensures { IfOk result (λ ids. ids.items ≡ map (λ n. n.id) neighbours.now) }
{
    let ids = neighbours
        .iter()
        .map(|neighbour| neighbour.id)
        .collect(alloc)?;
    Ok(ids)
}

/// No message went to any of these nodes.
fn rows_of(alloc: Global, nodes: &[NodeId]) -> Result<Vec<PathsTo>, Memory>
    ensures { IfOk result (λ rows. rows.items ≡ map no_paths nodes.now) }
{
    let rows = nodes
        .iter()
        .map(|node| PathsTo {
            dst: *node,
            count: 0,
        })
        .collect(alloc)?;
    Ok(rows)
}
