// One line at its stage: where it leads, or why it is bad. The stage stays in its place where the line is bad.
ghost use Rattle.std.specs.Prelude.{◌≡◌, ◌<◌, ◌∷◌, ◌++◌, [], IfErr, IfOk, OnErr, OnOk, length, map};
ghost use Rattle.sp_base.specs.declared.limits.TheConstants.{MAX_EVENTS};
ghost use Rattle.sp_lines.specs.Answers.{Says};
ghost use Rattle.sp_lines.specs.Rows.{line_of};
ghost use Rattle.sp_schedule.specs.Header.{bad_cells, next_after};
ghost use Rattle.sp_schedule.specs.Lines.{IsLead, next_edge, with_bad, with_edge, with_epochs};

use crate::header::{
    bad, bounds, edge, height, is_bad_line, is_begin, is_end, is_epochs, is_next_edge, next_after,
    nodes, seed, version,
};
use crate::refused::kind_of;
use crate::scenario_copy::copy_of;
use crate::{Edge, Event, Graph, Kind, LineRefused, LmsHeight, Parsed, Scenario, Stage, Timeline};
use sp_base::{FORMAT_2, Limits, Listed, MAX_EVENTS, Memory, NodeId};
use sp_schedule_events::read_event;
use std::alloc::Global;

/// What comes of a line.
#[derive(Drop)]
pub enum Lead {
    /// The line is good: the next one stands here, and this was given.
    To(Stage, Parsed),
    /// The line is bad. The stage comes back unchanged.
    Bad(Stage, Kind),
    /// No memory was left for what the line says. The stage comes back unchanged.
    Unread(Stage),
}

/// Where the words of a line lead from the stage.
pub fn follow(alloc: Global, stage: Stage, words: &[&[u8]]) -> Lead
    ensures { IsLead stage (map (λ w. w.now) words.now) result }
{
    match stage {
        Stage::Start => after_start(words),
        Stage::Version { format } => after_version(format, words),
        Stage::Seed { format, seed } => after_seed(format, seed, words),
        Stage::Height {
            format,
            seed,
            height,
        } => after_height(format, seed, height, words),
        Stage::Bounds {
            format,
            seed,
            height,
            limits,
        } => after_bounds(alloc, format, seed, height, limits, words),
        Stage::Edges(scenario) => after_edges(alloc, scenario, words),
        Stage::Bads(scenario) => after_bads(alloc, scenario, words),
        Stage::Epochs(scenario) => after_epochs(alloc, scenario, words),
        Stage::Events(scenario, events) => after_events(alloc, scenario, events, words),
        Stage::End(scenario, events) => Lead::Bad(Stage::End(scenario, events), Kind::AfterEnd),
    }
}

/// The next line of the header stands here.
fn on(stage: Stage) -> Lead
    ensures { result ≡ Lead.To stage Parsed.Header }
{
    Lead::To(stage, Parsed::Header)
}

fn after_start(words: &[&[u8]]) -> Lead
    ensures { IsLead Stage.Start (map (λ w. w.now) words.now) result }
{
    match version(words) {
        Some(format) => on(Stage::Version { format }),
        None => Lead::Bad(Stage::Start, Kind::Header),
    }
}

fn after_version(format: u8, words: &[&[u8]]) -> Lead
    ensures { IsLead (Stage.Version format) (map (λ w. w.now) words.now) result }
{
    match seed(words) {
        Some(seed) => on(Stage::Seed { format, seed }),
        None => Lead::Bad(Stage::Version { format }, Kind::Header),
    }
}

fn after_seed(format: u8, seed: [u8; 32], words: &[&[u8]]) -> Lead
    ensures { IsLead (Stage.Seed format seed) (map (λ w. w.now) words.now) result }
{
    match height(words) {
        Some(height) => on(Stage::Height {
            format,
            seed,
            height,
        }),
        None => Lead::Bad(Stage::Seed { format, seed }, Kind::Header),
    }
}

fn after_height(format: u8, seed: [u8; 32], height: LmsHeight, words: &[&[u8]]) -> Lead
    ensures { IsLead (Stage.Height format seed height) (map (λ w. w.now) words.now) result }
{
    match bounds(words) {
        Some(limits) => on(Stage::Bounds {
            format,
            seed,
            height,
            limits,
        }),
        None => Lead::Bad(
            Stage::Height {
                format,
                seed,
                height,
            },
            Kind::Header,
        ),
    }
}

fn after_bounds(
    alloc: Global,
    format: u8,
    seed: [u8; 32],
    height: LmsHeight,
    limits: Limits,
    words: &[&[u8]],
) -> Lead
    ensures { IsLead (Stage.Bounds format seed height limits) (map (λ w. w.now) words.now) result }
{
    match nodes(format, words) {
        Some(nodes) => on(Stage::Edges(Scenario {
            format,
            seed,
            height,
            limits,
            graph: Graph {
                nodes,
                edges: Listed::from_vec(Vec::new(alloc)),
            },
            bad: Listed::from_vec(Vec::new(alloc)),
            epochs: false,
        })),
        None => Lead::Bad(
            Stage::Bounds {
                format,
                seed,
                height,
                limits,
            },
            Kind::Header,
        ),
    }
}

fn after_edges(alloc: Global, scenario: Scenario, words: &[&[u8]]) -> Lead
    ensures { IsLead (Stage.Edges scenario) (map (λ w. w.now) words.now) result }
{
    if is_begin(words) {
        return match begun(alloc, scenario) {
            Ok(lead) => lead,
            Err(scenario) => Lead::Unread(Stage::Edges(scenario)),
        };
    }
    if is_epochs(words) {
        if scenario.format != FORMAT_2 {
            return Lead::Bad(Stage::Edges(scenario), Kind::Header);
        }
        return on(Stage::Epochs(with_epochs(scenario)));
    }
    if is_bad_line(words) {
        let Some(id) = next_bad(&scenario, words) else {
            return Lead::Bad(Stage::Edges(scenario), Kind::Header);
        };
        return match with_bad(scenario, id) {
            Ok(more) => on(Stage::Bads(more)),
            Err(scenario) => Lead::Unread(Stage::Edges(scenario)),
        };
    }
    let Some(edge) = next_edge(&scenario, words) else {
        return Lead::Bad(Stage::Edges(scenario), Kind::Header);
    };
    match with_edge(scenario, edge) {
        Ok(more) => on(Stage::Edges(more)),
        Err(scenario) => Lead::Unread(Stage::Edges(scenario)),
    }
}

fn after_bads(alloc: Global, scenario: Scenario, words: &[&[u8]]) -> Lead
    ensures { IsLead (Stage.Bads scenario) (map (λ w. w.now) words.now) result }
{
    if is_begin(words) {
        return match begun(alloc, scenario) {
            Ok(lead) => lead,
            Err(scenario) => Lead::Unread(Stage::Bads(scenario)),
        };
    }
    if is_epochs(words) {
        if scenario.format != FORMAT_2 {
            return Lead::Bad(Stage::Bads(scenario), Kind::Header);
        }
        return on(Stage::Epochs(with_epochs(scenario)));
    }
    let Some(id) = next_bad(&scenario, words) else {
        return Lead::Bad(Stage::Bads(scenario), Kind::Header);
    };
    match with_bad(scenario, id) {
        Ok(more) => on(Stage::Bads(more)),
        Err(scenario) => Lead::Unread(Stage::Bads(scenario)),
    }
}

fn after_epochs(alloc: Global, scenario: Scenario, words: &[&[u8]]) -> Lead
    ensures { IsLead (Stage.Epochs scenario) (map (λ w. w.now) words.now) result }
{
    if !is_begin(words) {
        return Lead::Bad(Stage::Epochs(scenario), Kind::Header);
    }
    match begun(alloc, scenario) {
        Ok(lead) => lead,
        Err(scenario) => Lead::Unread(Stage::Epochs(scenario)),
    }
}

/// The header is whole. Where no memory is left, the scenario comes back.
fn begun(alloc: Global, scenario: Scenario) -> Result<Lead, Scenario>
    ensures ok { IfOk result (λ lead. lead ≡ Lead.To (Stage.Events scenario []) (Parsed.Began scenario)) }
    ensures err { IfErr result (λ back. back ≡ scenario) }
{
    match copy_of(alloc, &scenario) {
        Ok(copied) => Ok(Lead::To(
            Stage::Events(scenario, Timeline::new(alloc)),
            Parsed::Began(copied),
        )),
        Err(Memory) => Err(scenario),
    }
}

/// The edge of a line, where it may come next.
fn next_edge(scenario: &Scenario, words: &[&[u8]]) -> Option<Edge>
    ensures { Says (λ e. e) result (next_edge scenario.now (map (λ w. w.now) words.now)) }
{
    let edge = edge(scenario.graph.nodes, words)?;
    if is_next_edge(scenario.format, &scenario.graph, &edge) {
        Some(edge)
    } else {
        None
    }
}

/// The compromised node of a line, where it may come next.
fn next_bad(scenario: &Scenario, words: &[&[u8]]) -> Option<NodeId>
    ensures { Says (λ id. (id.0, tt)) result (line_of (bad_cells (next_after 1 scenario.now.bad) scenario.now.graph.nodes) (map (λ w. w.now) words.now)) }
{
    bad(
        next_after(scenario.bad.as_slice()),
        scenario.graph.nodes,
        words,
    )
}

/// The scenario with one more edge. Where no memory is left, it comes back as it was.
fn with_edge(mut scenario: Scenario, edge: Edge) -> Result<Scenario, Scenario>
    ensures ok { IfOk result (λ more. more ≡ with_edge scenario edge) }
    ensures err { IfErr result (λ back. back ≡ scenario) }
{
    match scenario.graph.edges.push(edge) {
        Ok(()) => Ok(scenario),
        Err(Memory) => Err(scenario),
    }
}

/// The scenario with one more compromised node. Where no memory is left, it comes back as it was.
fn with_bad(mut scenario: Scenario, id: NodeId) -> Result<Scenario, Scenario>
    ensures ok { IfOk result (λ more. more ≡ with_bad scenario id) }
    ensures err { IfErr result (λ back. back ≡ scenario) }
{
    match scenario.bad.push(id) {
        Ok(()) => Ok(scenario),
        Err(Memory) => Err(scenario),
    }
}

/// The scenario whose nodes start and stop by events.
fn with_epochs(mut scenario: Scenario) -> Scenario
    ensures { result ≡ with_epochs scenario }
{
    scenario.epochs = true;
    scenario
}

fn after_events(alloc: Global, scenario: Scenario, mut events: Timeline, words: &[&[u8]]) -> Lead
    ensures { IsLead (Stage.Events scenario events) (map (λ w. w.now) words.now) result }
{
    if is_end(words) {
        return Lead::To(Stage::End(scenario, events), Parsed::Ended);
    }
    if events.len() >= MAX_EVENTS {
        return Lead::Bad(Stage::Events(scenario, events), Kind::TooMany);
    }
    match read_event(alloc, &scenario, &events, words) {
        Ok(event) => match push_copied(alloc, &mut events, event) {
            Ok(copied) => Lead::To(Stage::Events(scenario, events), Parsed::Event(copied)),
            Err(Memory) => Lead::Unread(Stage::Events(scenario, events)),
        },
        Err(LineRefused::Bad(fault)) => {
            Lead::Bad(Stage::Events(scenario, events), kind_of(fault))
        }
        Err(LineRefused::Memory) => Lead::Unread(Stage::Events(scenario, events)),
    }
}

/// Appends an event, and gives a copy of it. Where no memory is left, the events are as before.
fn push_copied(alloc: Global, events: &mut Timeline, event: Event) -> Result<Event, Memory>
    requires { length events.old < MAX_EVENTS }
    ensures copied { IfOk result (λ copied. copied ≡ event) }
    ensures ok { OnOk result (events.new ≡ events.old ++ event ∷ []) }
    ensures err { OnErr result (events.new ≡ events.old) }
{
    let copied = event.copy(alloc)?;
    events.push(event)?;
    Ok(copied)
}
