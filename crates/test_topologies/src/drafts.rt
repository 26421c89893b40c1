// Drafts of a topology held against the first fault of each.

use crate::topologies::name_of;
use sp_base::{FORMAT_1, FORMAT_2, NodeId};
use sp_topology::{Edge, first_fault};
use std::alloc::Global;
use std::process::Abort;
use std::test::Fail;

/// Rows of the nodes and edges of a draft, and its first fault. An edge is its two ends and its weight.
fn draft_rows() -> &'static str {
    "\
|1-2-10|TooFew
1|1-2-10|TooFew
1 2 4|1-2-10 2-4-1|no fault
1 2 4||no fault
0 2 4|1-2-10|Order
1 2 17|1-2-10|Order
2 1 4|1-2-10|Order
1 1 4|1-2-10|Twice
1 2 4|1-1-10|Loop
1 2 4|5-5-10|Loop
1 2 4|2-1-10|Order
1 2 4|2-4-1 1-2-10|Order
1 2 4|1-2-10 1-2-10|Twice
1 2 4|1-2-10 1-2-0|Twice
1 2 4|1-5-10|Unknown
1 2 4|0-1-10|Unknown
1 2 4|1-200-10|Unknown
1 2 4|200-1-10|Order
1 2 4|1-2-0|Weight
1 2 4|1-2-1000001|Weight
1 2 4|1-5-0|Unknown
1 2 4|1-2-0 1-1-10|Weight"
}

/// The same in format 2.
fn draft_rows_in_format_2() -> &'static str {
    "\
1 17 32|1-17-10 17-32-1000000|no fault
1 17 32|1-17-0 17-32-0|no fault
1 17 33|1-17-10|Order
0 17 32|1-17-10|Order
1 1 32|1-17-10|Twice
1 17 32|1-1-10|Loop
1 17 32|32-1-10|Order
1 17 32|1-18-10|Unknown
1 17 32|1-17-0 1-17-0|Twice
1 17 32|1-17-1000001|Weight"
}

/// The nodes of a row.
fn nodes_of(alloc: Global, written: &str) -> Result<Vec<NodeId>, Fail> {
    let mut nodes = Vec::new(alloc);
    for id in written.split_whitespace() {
        nodes.push(NodeId(id.parse()?))?;
    }
    Ok(nodes)
}

/// The edges of a row.
fn edges_of(alloc: Global, written: &str) -> Result<Vec<Edge>, Fail> {
    let mut edges = Vec::new(alloc);
    for edge in written.split_whitespace() {
        let (low, rest) = edge.split_once('-').ok_or("no higher end")?;
        let (high, weight) = rest.split_once('-').ok_or("no weight")?;
        edges.push(Edge {
            low: NodeId(low.parse()?),
            high: NodeId(high.parse()?),
            weight: weight.parse()?,
        })?;
    }
    Ok(edges)
}

/// The first fault of a draft of format 1.
fn fault_name(nodes: &[NodeId], edges: &[Edge]) -> &'static str {
    fault_in(FORMAT_1, nodes, edges)
}

/// The first fault of a draft of a format.
fn fault_in(format: u8, nodes: &[NodeId], edges: &[Edge]) -> &'static str {
    match first_fault(format, nodes, edges) {
        Some(fault) => name_of(fault),
        None => "no fault",
    }
}

#[test]
fn a_draft_is_judged_as_its_document_would_be(rt: HostRuntime) -> Result<(), Fail> {
    let alloc = rt.alloc();
    for row in draft_rows().lines() {
        let (nodes, rest) = row.split_once('|').ok_or("no edges")?;
        let (edges, answer) = rest.split_once('|').ok_or("no answer")?;
        let nodes = nodes_of(alloc, nodes)?;
        let edges = edges_of(alloc, edges)?;
        assert_eq!(rt; fault_name(&nodes, &edges), answer, "{row}");
    }
    Ok(())
}

#[test]
fn a_draft_of_format_2_is_judged_as_its_document_would_be(rt: HostRuntime) -> Result<(), Fail> {
    let alloc = rt.alloc();
    for row in draft_rows_in_format_2().lines() {
        let (nodes, rest) = row.split_once('|').ok_or("no edges")?;
        let (edges, answer) = rest.split_once('|').ok_or("no answer")?;
        let nodes = nodes_of(alloc, nodes)?;
        let edges = edges_of(alloc, edges)?;
        assert_eq!(rt; fault_in(FORMAT_2, &nodes, &edges), answer, "{row}");
    }
    Ok(())
}

/// The first fault of so many nodes, the last of them node 16 again and again, and so many edges that are all one.
fn fault_of(alloc: Global, nodes: u32, edges: usize) -> Result<&'static str, Fail> {
    let mut ids = Vec::new(alloc);
    for place in 0..nodes {
        ids.push(NodeId(place.min(15) as u8 + 1))?;
    }
    let edge = Edge {
        low: NodeId(1),
        high: NodeId(2),
        weight: 1,
    };
    let edges = vec![in alloc; edge; edges]?;
    Ok(fault_name(&ids, &edges))
}

#[test]
fn a_draft_may_have_more_than_a_document_can_count(rt: HostRuntime) -> Result<(), Fail> {
    let alloc = rt.alloc();
    assert_eq!(rt; fault_of(alloc, 16, 1)?, "no fault");
    assert_eq!(rt; fault_of(alloc, 258, 0)?, "TooMany");
    assert_eq!(rt; fault_of(alloc, 16, 65_537)?, "TooMany");
    Ok(())
}

#[test]
fn a_draft_has_one_node_or_edge_too_many(rt: HostRuntime) -> Result<(), Fail> {
    let alloc = rt.alloc();
    assert_eq!(rt; fault_of(alloc, 17, 0)?, "TooMany");
    assert_eq!(rt; fault_of(alloc, 16, 121)?, "TooMany");
    assert_eq!(rt; fault_of(alloc, 16, 120)?, "Twice");
    Ok(())
}
