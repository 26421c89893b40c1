// The earliest end of a sweep, and of what must stand before the sweep forth.
ghost use Rattle.std.specs.Prelude.{◌≡◌, ◌+◌, ◌<◌, ◌≤◌, ◌∷◌, suc, IsTrue, List, length, if◌then◌else◌};
ghost use Rattle.std.specs.List.{list_any};
ghost use Rattle.sp_audit.specs.Ends.{HasSweep, IsFirstEnd, IsReady, sweep_end};
ghost use Rattle.sp_base.specs.declared.limits.TheConstants.{MAX_EVENTS};
ghost use Rattle.sp_rules.specs.declared.kflow.FlowKind.TheVariants.{Plain};
ghost use Rattle.sp_runs.specs.Rounds.{is_pass, is_take};
ghost use Rattle.sp_runs.specs.Runs.{is_poll, polls};
ghost use Rattle.sp_schedule_events.specs.declared.event.Event.{Event};

use sp_base::{Flow, NodeId};
use sp_schedule_events::Event;

/// What is known of a direction at an event: how many frames were made, how many of the last ones were passed in time, and whether one waits for its pass.
#[derive(Debug, Drop)]
struct Walk {
    made: usize,
    good: usize,
    waits: bool,
}

impl Walk {
    /// Goes over an event. Whether a sweep ends with it.
    fn step(&mut self, event: &Event, least: usize, u: NodeId, v: NodeId) -> bool
        requires made { self.old.made < MAX_EVENTS }
        requires good { self.old.good < MAX_EVENTS }
        ensures made { self.new.made ≤ self.old.made + 1 }
        ensures good { self.new.good ≤ self.old.good + 1 }
        ensures walked { (es : List Event) → sweep_end least u v self.old.made self.old.good self.old.waits (event.now ∷ es)
            ≡ (if result then 1 else suc (sweep_end least u v self.new.made self.new.good self.new.waits es)) }
    {
        if is_poll(event, u, v) {
            if self.waits {
                self.good = 0;
            }
            self.made += 1;
            self.waits = true;
            return false;
        }
        if self.waits && is_pass(event, u, v, self.made) {
            self.good += 1;
            self.waits = false;
            return least <= self.good;
        }
        false
    }
}

/// How many of the events go by up to the earliest end of a sweep from `u` to `v`, where `u` made so many frames for `v` before: one more than there are
/// where there is none.
pub fn sweep_end(during: &[Event], made: usize, least: usize, u: NodeId, v: NodeId) -> usize
    requires some { 1 ≤ least }
    requires few { made + length during.now ≤ MAX_EVENTS }
    ensures { (before : List Event) → made ≡ polls before u v → IsFirstEnd (HasSweep least u v before) during.now result }
{
    let mut walk = Walk {
        made,
        good: 0,
        waits: false,
    };
    'events: for place in 0..during.len() {
        if walk.step(&during[place], least, u, v) {
            return place + 1;
        }
    }
    during.len() + 1
}

/// The same of a sweep from `v` to `u`, and on the hop to the flow's destination of a take too.
pub fn ready_end(
    during: &[Event],
    made: usize,
    least: usize,
    flow: Flow,
    u: NodeId,
    v: NodeId,
) -> usize
    requires some { 1 ≤ least }
    requires few { made + length during.now ≤ MAX_EVENTS }
    ensures { (before : List Event) → made ≡ polls before v u → IsFirstEnd (IsReady least flow.src flow.dst u v before) during.now result }
{
    let back = sweep_end(during, made, least, v, u);
    if v == flow.dst {
        back.max(take_end(during, flow))
    } else {
        back
    }
}

/// The same of a take.
fn take_end(during: &[Event], flow: Flow) -> usize
    requires { length during.now ≤ MAX_EVENTS }
    ensures { IsFirstEnd (λ xs. IsTrue (list_any (is_take Plain flow.dst flow.src) xs)) during.now result }
{
    'events: for place in 0..during.len() {
        if is_take(&during[place], flow) {
            return place + 1;
        }
    }
    during.len() + 1
}

// ---- events

/// How many frames `u` made for `v`.
pub fn polls(events: &[Event], u: NodeId, v: NodeId) -> usize
    ensures { result ≡ polls events.now u v }
{
    events.iter().filter(|e| is_poll(e, u, v)).count()
}

fn is_poll(event: &Event, u: NodeId, v: NodeId) -> bool
    ensures { result ≡ is_poll u v event.now }
{
    match event {
        Event::Poll { u: from, v: to } => *from == u && *to == v,
        _ => false,
    }
}

fn is_pass(event: &Event, u: NodeId, v: NodeId, number: usize) -> bool
    ensures { result ≡ is_pass u v number event.now }
{
    match event {
        Event::Pass {
            u: from,
            v: to,
            number: n,
        } => *from == u && *to == v && *n as usize == number,
        _ => false,
    }
}

fn is_take(event: &Event, flow: Flow) -> bool
    ensures { result ≡ is_take Plain flow.dst flow.src event.now }
{
    match event {
        Event::Take { d, s } => *d == flow.dst && *s == flow.src,
        _ => false,
    }
}
