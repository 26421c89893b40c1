// Which nodes are started, so that it is known without a walk over the events.
ghost use Rattle.std.specs.Prelude.{◌≡◌};
ghost use Rattle.sp_schedule_events.specs.StartedNodes.{with_life};

use crate::Event;

/// How many ids there are.
pub const IDS: usize = 256;

/// One more event: a node that starts or stops gets its flag.
pub fn note(started: &mut [bool; 256], event: &Event)
    ensures { started.new ≡ with_life started.old event.now }
{
    match event {
        Event::Start { u } => started[u.0 as usize] = true,
        Event::Stop { u } => started[u.0 as usize] = false,
        _ => {}
    }
}
