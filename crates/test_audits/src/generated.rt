// Runs of generated schedules, with compromised nodes in them, break no promise.
use sp_audit::audit;
use sp_base::MAX_EVENTS;
use sp_generate::{generate, make};
use sp_outside::{MemoryClock, MemoryKeeper, MemoryWire, PlannedSink, PlannedSource};
use sp_schedule_events::Scenario;
use sp_top::run;
use sp_world::World;
use std::alloc::Global;
use std::test::Fail;

/// So many numbers are tried, from 1000 on.
const RUNS: u32 = 50;

/// Whether the world's events and its journal break no promise.
fn is_good(alloc: Global, scenario: &Scenario, world: &World) -> bool {
    let (events, journal) = (world.events(), world.journal());
    !scenario.epochs
        && events.len() == journal.len()
        && events.len() <= MAX_EVENTS
        && audit(alloc, scenario, events, journal).is_ok()
}

/// Whether the whole schedule of a number is run, and an auditor finds no broken promise.
fn is_run_well(alloc: Global, number: u32) -> Result<bool, Fail> {
    let made = make(alloc, number)?;
    let text = generate(alloc, number)?;
    let mut words = Vec::new(alloc);
    words.push(String::from_str(alloc, "replay")?)?;
    let outcome = run(
        alloc,
        words.as_slice(),
        &mut PlannedSource::new(text.as_slice(), 100_000, &[]),
        &mut PlannedSink::new(alloc, 1_000_000, &[]),
        &mut MemoryWire::silent(alloc),
        &mut MemoryClock::new(0),
        &mut MemoryKeeper::new(),
    );
    let good = match &outcome.world {
        Some(world) => {
            world.events().len() == made.events.as_slice().len()
                && is_good(alloc, &made.scenario, world)
        }
        None => false,
    };
    Ok(outcome.into_code() == 0 && good)
}

#[test]
fn generated_runs_break_no_promise(rt: HostRuntime) -> Result<(), Fail> {
    for number in 1_000..1_000 + RUNS {
        assert!(rt; is_run_well(rt.alloc(), number)?, "number {number}");
    }
    Ok(())
}
