// The schedule of a number, as values and as text.
ghost use Rattle.std.specs.Prelude.{◌≡◌, IfOk};
ghost use Rattle.sp_generate.specs.Generated.{generated_events, generated_scenario};
ghost use Rattle.sp_schedule.specs.Scenarios.{IsSchedule};
ghost use Rattle.sp_schedule.specs.Spelling.{schedule_text};

use crate::happenings::events;
use crate::header::scenario;
use sp_base::{Bytes, Listed, Memory};
use sp_schedule::print;
use sp_schedule_events::{Event, Scenario};
use std::alloc::Global;

/// A header and the events after it.
#[derive(Debug, Drop)]
pub struct Generated {
    pub scenario: Scenario,
    pub events: Listed<Event>,
}

/// The schedule of a number. The same number gives the same schedule on every machine.
pub fn make(alloc: Global, number: u32) -> Result<Generated, Memory>
    ensures scenario { IfOk result (λ made. made.scenario ≡ generated_scenario number) }
    ensures events { IfOk result (λ made. made.events ≡ generated_events number) }
    ensures schedule { IfOk result (λ made. IsSchedule made.scenario made.events) }
{
    Ok(Generated {
        scenario: scenario(alloc, number)?,
        events: Listed::from_vec(events(alloc, number)?),
    })
}

/// Its text.
pub fn generate(alloc: Global, number: u32) -> Result<Bytes, Memory>
    ensures { IfOk result (λ text. text ≡ schedule_text (generated_scenario number) (generated_events number)) }
{
    let made = make(alloc, number)?;
    let text = print(alloc, &made.scenario, made.events.as_slice())?;
    Ok(Bytes::from_vec(text.into_bytes()))
}
