// A schedule, written.
ghost use Rattle.std.specs.Prelude.{◌≡◌, ◌++◌, IfOk, OnOk, map};
ghost use Rattle.std.specs.List.{flat_map};
ghost use Rattle.std.specs.String.{string_bytes};
ghost use Rattle.sp_lines.specs.Rows.{line_text};
ghost use Rattle.sp_schedule_events.specs.Events.{event_words};
ghost use Rattle.sp_schedule.specs.Spelling.{bad_words, begin_words, bounds_words, edge_words, end_words, height_words, nodes_words, seed_words, version_words};
ghost use Rattle.sp_schedule.specs.Spelling.{epochs_lines, front_lines, schedule_text};

use crate::{Edge, Event, LmsHeight, Scenario};
use sp_base::{Limits, Memory, NodeId};
use sp_lines::{push_field, push_hex_field};
use sp_schedule_events::push_event;
use std::alloc::Global;

/// The text of a schedule.
pub fn print(alloc: Global, scenario: &Scenario, events: &[Event]) -> Result<String, Memory>
    ensures { IfOk result (λ out. string_bytes out ≡ schedule_text scenario.now events.now) }
{
    let mut out = String::new(alloc);
    push_front(&mut out, scenario)?;
    push_edges(&mut out, scenario.graph.edges.as_slice())?;
    push_bads(&mut out, scenario.bad.as_slice())?;
    push_epochs(&mut out, scenario)?;
    out.push_str("begin\n")?;
    push_events(&mut out, scenario, events)?;
    out.push_str("end\n")?;
    Ok(out)
}

/// Appends the lines up to the number of nodes.
fn push_front(out: &mut String, scenario: &Scenario) -> Result<(), Memory>
    ensures { OnOk result (string_bytes out.new ≡ string_bytes out.old
        ++ flat_map line_text (front_lines scenario.now.format scenario.now.seed scenario.now.height scenario.now.limits scenario.now.graph.nodes)) }
{
    push_version(out, scenario.format)?;
    push_seed(out, scenario.seed.as_slice())?;
    push_height(out, scenario.height)?;
    push_bounds(out, scenario.limits)?;
    push_nodes(out, scenario.graph.nodes)
}

fn push_version(out: &mut String, format: u8) -> Result<(), Memory>
    ensures { OnOk result (string_bytes out.new ≡ string_bytes out.old ++ line_text (version_words format)) }
{
    out.push_str("schedule")?;
    push_field(out, u64::from(format))?;
    out.push_str("\n")?;
    Ok(())
}

fn push_seed(out: &mut String, seed: &[u8]) -> Result<(), Memory>
    ensures { OnOk result (string_bytes out.new ≡ string_bytes out.old ++ line_text (seed_words seed.now)) }
{
    out.push_str("seed")?;
    push_hex_field(out, seed)?;
    out.push_str("\n")?;
    Ok(())
}

fn push_height(out: &mut String, height: LmsHeight) -> Result<(), Memory>
    ensures { OnOk result (string_bytes out.new ≡ string_bytes out.old ++ line_text (height_words height)) }
{
    out.push_str("height")?;
    match height {
        LmsHeight::Five => push_field(out, 5)?,
        LmsHeight::Ten => push_field(out, 10)?,
    }
    out.push_str("\n")?;
    Ok(())
}

fn push_bounds(out: &mut String, limits: Limits) -> Result<(), Memory>
    ensures { OnOk result (string_bytes out.new ≡ string_bytes out.old ++ line_text (bounds_words limits)) }
{
    out.push_str("bounds")?;
    push_field(out, u64::from(limits.buffer))?;
    push_field(out, u64::from(limits.store))?;
    out.push_str("\n")?;
    Ok(())
}

fn push_nodes(out: &mut String, nodes: u8) -> Result<(), Memory>
    ensures { OnOk result (string_bytes out.new ≡ string_bytes out.old ++ line_text (nodes_words nodes)) }
{
    out.push_str("nodes")?;
    push_field(out, u64::from(nodes))?;
    out.push_str("\n")?;
    Ok(())
}

fn push_edges(out: &mut String, edges: &[Edge]) -> Result<(), Memory>
    ensures { OnOk result (string_bytes out.new ≡ string_bytes out.old ++ flat_map (λ e. line_text (edge_words e)) edges.now) }
{
    'edges: for edge in edges {
        push_edge(out, edge)?;
    }
    Ok(())
}

fn push_edge(out: &mut String, edge: &Edge) -> Result<(), Memory>
    ensures { OnOk result (string_bytes out.new ≡ string_bytes out.old ++ line_text (edge_words edge.now)) }
{
    out.push_str("edge")?;
    push_field(out, u64::from(edge.low.0))?;
    push_field(out, u64::from(edge.high.0))?;
    push_field(out, u64::from(edge.weight))?;
    out.push_str("\n")?;
    Ok(())
}

fn push_bads(out: &mut String, bad: &[NodeId]) -> Result<(), Memory>
    ensures { OnOk result (string_bytes out.new ≡ string_bytes out.old ++ flat_map (λ id. line_text (bad_words id)) bad.now) }
{
    'bad: for id in bad {
        push_bad(out, *id)?;
    }
    Ok(())
}

fn push_bad(out: &mut String, id: NodeId) -> Result<(), Memory>
    ensures { OnOk result (string_bytes out.new ≡ string_bytes out.old ++ line_text (bad_words id)) }
{
    out.push_str("bad")?;
    push_field(out, u64::from(id.0))?;
    out.push_str("\n")?;
    Ok(())
}

/// Appends the line `epochs`, where the scenario has it.
fn push_epochs(out: &mut String, scenario: &Scenario) -> Result<(), Memory>
    ensures { OnOk result (string_bytes out.new ≡ string_bytes out.old ++ flat_map line_text (epochs_lines scenario.now)) }
{
    if scenario.epochs {
        out.push_str("epochs\n")?;
    }
    Ok(())
}

fn push_events(out: &mut String, scenario: &Scenario, events: &[Event]) -> Result<(), Memory>
    ensures { OnOk result (string_bytes out.new ≡ string_bytes out.old ++ flat_map (λ e. line_text (event_words scenario.now e)) events.now) }
{
    'events: for event in events {
        push_event(out, scenario, event)?;
    }
    Ok(())
}
