// Paths and cuts as lines.
ghost use Rattle.std.specs.Prelude.{◌≡◌, ◌++◌, IfOk, List, ℕ, OnOk};
ghost use Rattle.std.specs.List.{flat_map};
ghost use Rattle.std.specs.String.{string_bytes};
ghost use Rattle.sp_offline.specs.PathsLines.{cost_line, fewer_text, node_text, part_sign, part_text, path_line, paths_text};

use sp_base::{Bytes, Listed, Memory, NodeId};
use sp_graph::Part;
use sp_paths::Paths;
use sp_text::push_number;
use std::alloc::Global;

/// The lines of paths, and the line of their cost.
#[tactic(auto, unfolding(crate::specs::PathsLines::paths_text))]
pub fn paths_text(alloc: Global, paths: &Paths) -> Result<Bytes, Memory>
    ensures { IfOk result (λ out. out ≡ paths_text paths.now) }
{
    let mut out = String::new(alloc);
    push_paths(&mut out, paths.paths.as_slice())?;
    push_cost(&mut out, paths.cost)?;
    Bytes::copy(alloc, out.as_bytes())
}

fn push_paths(out: &mut String, paths: &[Listed<NodeId>]) -> Result<(), Memory>
    ensures { OnOk result (string_bytes out.new ≡ string_bytes out.old ++ flat_map path_line paths.now) }
{
    'paths: for path in paths {
        push_path(out, path.as_slice())?;
    }
    Ok(())
}

#[tactic(auto, unfolding(crate::specs::PathsLines::path_line))]
fn push_path(out: &mut String, path: &[NodeId]) -> Result<(), Memory>
    ensures { OnOk result (string_bytes out.new ≡ string_bytes out.old ++ path_line path.now) }
{
    out.push_str("path")?;
    push_nodes(out, path)?;
    out.push_str("\n")?;
    Ok(())
}

fn push_nodes(out: &mut String, path: &[NodeId]) -> Result<(), Memory>
    ensures { OnOk result (string_bytes out.new ≡ string_bytes out.old ++ flat_map node_text path.now) }
{
    'nodes: for node in path {
        push_node(out, *node)?;
    }
    Ok(())
}

fn push_node(out: &mut String, node: NodeId) -> Result<(), Memory>
    ensures { OnOk result (string_bytes out.new ≡ string_bytes out.old ++ node_text node) }
{
    out.push_str(" ")?;
    push_number(out, u64::from(node.0))
}

#[tactic(auto, unfolding(crate::specs::PathsLines::cost_line))]
fn push_cost(out: &mut String, cost: u64) -> Result<(), Memory>
    ensures { OnOk result (string_bytes out.new ≡ string_bytes out.old ++ cost_line cost) }
{
    out.push_str("cost ")?;
    push_number(out, cost)?;
    out.push_str("\n")?;
    Ok(())
}

/// How many paths there are, and the parts of the cut between the two ends.
#[tactic(auto, unfolding(crate::specs::PathsLines::fewer_text))]
pub fn fewer_text(
    alloc: Global,
    s: NodeId,
    t: NodeId,
    found: u8,
    cut: &[Part],
) -> Result<Bytes, Memory>
    ensures { IfOk result (λ out. out ≡ fewer_text s t found cut.now) }
{
    let mut out = String::new(alloc);
    out.push_str("fewer ")?;
    push_number(&mut out, u64::from(found))?;
    out.push_str("\ncut")?;
    push_parts(&mut out, s, t, cut)?;
    out.push_str("\n")?;
    Bytes::copy(alloc, out.as_bytes())
}

fn push_parts(out: &mut String, s: NodeId, t: NodeId, cut: &[Part]) -> Result<(), Memory>
    ensures { OnOk result (string_bytes out.new ≡ string_bytes out.old ++ flat_map (part_text s t) cut.now) }
{
    'parts: for part in cut {
        push_part(out, s, t, *part)?;
    }
    Ok(())
}

#[tactic(auto, unfolding(crate::specs::PathsLines::part_text))]
fn push_part(out: &mut String, s: NodeId, t: NodeId, part: Part) -> Result<(), Memory>
    ensures { OnOk result (string_bytes out.new ≡ string_bytes out.old ++ part_text s t part) }
{
    match part {
        Part::In(node) => push_signed(out, node, sign(t, node, "-")),
        Part::Out(node) => push_signed(out, node, sign(s, node, "+")),
    }
}

/// The sign after a node's number, none where the node is the end.
fn sign(end: NodeId, node: NodeId, sign: &'static str) -> &'static str
    ensures { result.now ≡ part_sign end node sign.now }
{
    if node.0 == end.0 { "" } else { sign }
}

fn push_signed(out: &mut String, node: NodeId, sign: &str) -> Result<(), Memory>
    ensures { OnOk result (string_bytes out.new ≡ string_bytes out.old ++ (node_text node ++ sign.now)) }
{
    push_node(out, node)?;
    out.push_str(sign)?;
    Ok(())
}
