// How many plain flows may wait for their turn at a node.
ghost use Rattle.std.specs.Prelude.{◌≡◌, ◌≤◌, ◌&&◌, ◌==◌, false, not, if◌then◌else◌};
ghost use Rattle.std.specs.List.{count_by, list_any};
ghost use Rattle.sp_audit.specs.Counted.{may_wait};
ghost use Rattle.sp_rules.specs.Parts.{nodes_of};
ghost use Rattle.sp_rules.specs.Rel.{flows_from};
ghost use Rattle.sp_rules.specs.declared.kflow.FlowKind.TheVariants.{Plain};
ghost use Rattle.sp_runs.specs.Rounds.{flow_count, has_correct_ends, is_send};
ghost use Rattle.sp_runs.specs.Scenarios.{setting_of};

use crate::correct::is_correct;
use sp_base::{Flow, NodeId};
use sp_schedule_events::{Event, Scenario};

/// How many plain flows may ever wait for their turn at a node, at least 1: those between correct nodes that a client sends to among these events, and each
/// that has a compromised end. It is asked of headers without epochs alone.
pub fn flow_count(scenario: &Scenario, events: &[Event]) -> usize
    requires { scenario.now.epochs ≡ false }
    ensures some { 1 ≤ result }
    ensures counted { result ≡ flow_count Plain (setting_of scenario.now) events.now }
{
    let mut count = 0usize;
    'ids: for id in 0..scenario.graph.nodes {
        count += count_from(scenario, events, NodeId(id + 1));
    }
    1usize.max(count)
}

/// How many of them go from this node.
fn count_from(scenario: &Scenario, events: &[Event], src: NodeId) -> usize
    ensures few { result ≤ scenario.now.graph.nodes }
    ensures counted { result ≡ count_by (may_wait (setting_of scenario.now) events.now) (flows_from src (nodes_of (setting_of scenario.now).topology)) }
{
    let mut count = 0usize;
    'ids: for id in 0..scenario.graph.nodes {
        count += one_if(scenario, events, src, NodeId(id + 1));
    }
    count
}

/// 1 where there is a flow to this node that may wait, else 0.
fn one_if(scenario: &Scenario, events: &[Event], src: NodeId, dst: NodeId) -> usize
    ensures { result ≡ (if not (dst.0 == src.0) && may_wait (setting_of scenario.now) events.now (record { src = src; dst = dst }) then 1 else 0) }
{
    if dst == src {
        return 0;
    }
    if may_wait(scenario, events, Flow { src, dst }) {
        1
    } else {
        0
    }
}

/// Whether the flow has a compromised end, or a client sends to it among these events.
fn may_wait(scenario: &Scenario, events: &[Event], flow: Flow) -> bool
    ensures { result ≡ may_wait (setting_of scenario.now) events.now flow }
{
    if !has_correct_ends(scenario, flow) {
        return true;
    }
    is_sent(events, flow)
}

fn has_correct_ends(scenario: &Scenario, flow: Flow) -> bool
    ensures { result ≡ has_correct_ends (setting_of scenario.now) flow }
{
    is_correct(scenario, flow.src) && is_correct(scenario, flow.dst)
}

fn is_sent(events: &[Event], flow: Flow) -> bool
    ensures { result ≡ list_any (is_send Plain flow) events.now }
{
    events.iter().any(|e| is_send(flow, e))
}

fn is_send(flow: Flow, event: &Event) -> bool
    ensures { result ≡ is_send Plain flow event.now }
{
    match event {
        Event::Rel { s, d, .. } => *s == flow.src && *d == flow.dst,
        _ => false,
    }
}
