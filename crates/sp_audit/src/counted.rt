// How often a path was served: complete rounds one after another.
ghost use Rattle.std.specs.Prelude.{◌≡◌, ◌+◌, ◌≤◌, false, IfErr, IfOk, drop, length, take};
ghost use Rattle.sp_audit.specs.Ends.{AreMade, IsFirstEnd};
ghost use Rattle.sp_audit.specs.Counted.{IsCount, IsNoPath};
ghost use Rattle.sp_rules.specs.declared.kflow.FlowKind.TheVariants.{Plain};
ghost use Rattle.sp_runs.specs.Scenarios.{setting_of};
ghost use Rattle.sp_base.specs.declared.limits.TheConstants.{MAX_EVENTS};
ghost use Rattle.sp_rules.specs.declared.store.TheConstants.{IDS};
ghost use Rattle.sp_runs.specs.Rounds.{CompleteRounds, IsCompleteRound, IsHopServed};
ghost use Rattle.sp_runs.specs.Runs.{polls};

use crate::AuditRefused;
use crate::flows::flow_count;
use crate::made::Made;
use crate::path::is_path;
use crate::sweeps::{polls, ready_end, sweep_end};
use sp_base::{Flow, NodeId};
use sp_schedule_events::{Event, Scenario};

/// How many complete rounds of the path follow one after another among the events from this number on, counted from 1: so many do and one more don't.
/// Rounds are those of the plain flow between its ends. It is asked of headers without epochs alone: of others no delivery is counted.
/// It refuses with `NotPath` exactly where the nodes aren't a path of correct nodes, each joined to the next, at least two. It takes no memory.
pub fn rounds(
    scenario: &Scenario,
    events: &[Event],
    path: &[NodeId],
    from: usize,
) -> Result<u32, AuditRefused>
    requires plain { scenario.now.epochs ≡ false }
    requires few { length events.now ≤ MAX_EVENTS }
    requires first { 1 ≤ from }
    ensures counted { IfOk result (IsCount (setting_of scenario.now) events.now path.now from) }
    ensures refused { IfErr result (IsNoPath (setting_of scenario.now) path.now) }
{
    if !is_path(scenario, path) {
        return Err(AuditRefused::NotPath);
    }
    let flow = Flow {
        src: path[0],
        dst: path[path.len() - 1],
    };
    let least = flow_count(scenario, events);
    let at = (from - 1).min(events.len());
    Ok(count_rounds(events, at, least, flow, path))
}

/// How many complete rounds of the nodes follow one after another for the flow from this place on, exactly, where a sweep has `least` polls at least.
/// At most so many flows may wait at a node as `least` says. It takes no memory.
fn count_rounds(events: &[Event], from: usize, least: usize, flow: Flow, path: &[NodeId]) -> u32
    requires some { 1 ≤ least }
    requires few { length events.now ≤ MAX_EVENTS }
    requires there { from ≤ length events.now }
    requires hops { 2 ≤ length path.now }
    requires short { length path.now ≤ IDS }
    ensures counted { CompleteRounds Plain least flow.src flow.dst path.now result (take from events.now) (drop from events.now) }
    ensures no_more { CompleteRounds Plain least flow.src flow.dst path.now (result + 1) (take from events.now) (drop from events.now) → ⊥ }
{
    let mut made = Made::none();
    made.count(&events[..from], path);
    let mut at = from;
    'rounds: for round in 0..events.len() + 1 {
        let end = round_end(events, at, &made, least, flow, path);
        if events.len() - at < end {
            return round as u32;
        }
        made.count(&events[at..at + end], path);
        at += end;
    }
    // No round is without an event.
    events.len() as u32
}

/// How many events from this place on go by up to the earliest end of a complete round: one more than there are where there is none.
fn round_end(
    events: &[Event],
    from: usize,
    made: &Made,
    least: usize,
    flow: Flow,
    path: &[NodeId],
) -> usize
    requires some { 1 ≤ least }
    requires few { length events.now ≤ MAX_EVENTS }
    requires there { from ≤ length events.now }
    requires short { length path.now ≤ IDS }
    requires made { AreMade made.now.forth made.now.back path.now (take from events.now) }
    ensures { IsFirstEnd (IsCompleteRound Plain least flow.src flow.dst path.now (take from events.now)) (drop from events.now) result }
{
    let mut end = 0usize;
    'hops: for place in 1..path.len() {
        let count = (made.forth[place], made.back[place]);
        let served = hop_end(
            events,
            from,
            count,
            least,
            flow,
            path[place - 1],
            path[place],
        );
        end = end.max(served);
    }
    end
}

/// The same of an interval that serves the hop from `u` to `v`, which made so many frames before, forth and back.
fn hop_end(
    events: &[Event],
    from: usize,
    made: (usize, usize),
    least: usize,
    flow: Flow,
    u: NodeId,
    v: NodeId,
) -> usize
    requires some { 1 ≤ least }
    requires few { length events.now ≤ MAX_EVENTS }
    requires there { from ≤ length events.now }
    requires forth { made.0 ≡ polls (take from events.now) u v }
    requires back { made.1 ≡ polls (take from events.now) v u }
    ensures { IsFirstEnd (IsHopServed Plain least flow.src flow.dst u v (take from events.now)) (drop from events.now) result }
{
    let during = &events[from..];
    let ready = ready_end(during, made.1, least, flow, u, v);
    if during.len() < ready {
        return ready;
    }
    let at = from + ready;
    let forth = made.0 + polls(&events[from..at], u, v);
    ready + sweep_end(&events[at..], forth, least, u, v)
}
