// The rules that join the fields of a line.
ghost use Rattle.std.specs.Prelude.{◌≡◌, ◌<◌, ◌^◌, ◌||◌, not, IsTrue, Ok, Err, if◌then◌else◌};
ghost use Rattle.sp_lines.specs.Answers.{Reads};
ghost use Rattle.sp_schedule_events.specs.Events.{is_polled};
ghost use Rattle.sp_schedule_events.specs.Lives.{is_started};
ghost use Rattle.sp_schedule_events.specs.Scenarios.{are_joined, differ};

use crate::line_of::LineOf;
use crate::{Event, Fault, LineRefused, Scenario, Timeline};
use sp_base::NodeId;

/// The event, where its fields go together.
pub fn if_joined(good: bool, event: Event) -> Result<Event, LineRefused>
    ensures { Reads result (if good then Ok event else Err Fault.Range) }
{
    if good {
        Ok(event)
    } else {
        Err(LineRefused::Bad(Fault::Range))
    }
}

pub fn differ(a: NodeId, b: NodeId) -> bool
    ensures { result ≡ differ a.0 b.0 }
{
    a.0 != b.0
}

/// Whether the two are ends of an edge.
pub fn are_joined(scenario: &Scenario, a: NodeId, b: NodeId) -> bool
    ensures { result ≡ are_joined scenario.now a.0 b.0 }
{
    scenario
        .graph
        .edges
        .as_slice()
        .iter()
        .any(|edge| edge.joins(a, b))
}

/// Whether the frame of this number was made before.
pub fn is_polled(before: &Timeline, u: NodeId, v: NodeId, number: u64) -> bool
    ensures made { result ≡ is_polled before.now u.0 v.0 number }
    ensures small { IsTrue result → number < 2 ^ 32 }
{
    1 <= number && number <= u64::from(before.polls(u, v))
}

/// Whether a correct node may be asked for something: with epochs it must be started.
pub fn may_act(line: &LineOf<'_>, u: NodeId) -> bool
    ensures { result ≡ (not line.now.scenario.now.epochs || is_started line.now.before.now u.0) }
{
    !line.scenario.epochs || line.before.is_started(u)
}
