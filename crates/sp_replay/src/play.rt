// The world after a list of events.
ghost use Rattle.std.specs.Prelude.{IfOk};
ghost use Rattle.sp_schedule.specs.Scenarios.{IsSchedule};
ghost use Rattle.sp_schedule.specs.declared.stage.Stage.TheVariants as stages;
ghost use Rattle.sp_replay.specs.Played.{HasBuffers, IsPlayedBy, IsShort};

use laws_runs_format::scheduled_events_are_in_range;
use sp_base::Memory;
use sp_schedule::{Event, Scenario};
use sp_world::{World, WorldRefused};
use std::alloc::Global;

/// The world after these events, or after those before the first of which anything is forged.
pub fn play_all(alloc: Global, scenario: Scenario, events: Vec<Event>) -> Result<World, Memory>
    requires { IsSchedule scenario events.items }
    ensures run { IfOk result (λ world. IsPlayedBy (stages.End scenario events.items) world world.stopped) }
    ensures short { IfOk result IsShort }
    ensures buffers { IfOk result HasBuffers }
{
    scheduled_events_are_in_range();
    let mut world = World::make(alloc, scenario)?;
    'events: for event in events {
        world.is_run();
        match world.step(alloc, event) {
            Ok(()) => {}
            Err(WorldRefused::Forged { .. }) => return Ok(world),
            Err(WorldRefused::Memory) => return Err(Memory),
        }
    }
    Ok(world)
}
