// One line of a schedule that is replayed: its event is done, and its entry is written before the next line is read.
ghost use Rattle.std.specs.Prelude.{◌≡◌, ◌<◌, ◌+◌, ◌∷◌, ◌++◌, [], true, false, length, List, IfSome, None as Nothing, OnOk};
ghost use Rattle.std.specs.Io.KnownBytes.{Appends};
ghost use Rattle.sp_base.specs.declared.limits.TheConstants.{MAX_EVENTS};
ghost use Rattle.sp_journal.specs.declared.entry.Entry as noted;
ghost use Rattle.sp_runs.specs.Runs.{InRange};
ghost use Rattle.sp_runs.specs.Scenarios.{IsHeader, setting_of};
ghost use Rattle.sp_schedule.specs.Feeds.{is_ready, text_of};
ghost use Rattle.sp_replay.specs.Played.{IsShort};
ghost use Rattle.sp_replay.specs.Playing.{Begins, NotesEvent, NotesLast, Plays, SinkCountsIn, SoFar};
ghost use Rattle.sp_world.specs.Past.{IsPast};

use crate::World;
use crate::halt::Halt;
use laws_runs_format::{journals_are_countable, scheduled_events_are_in_range};
use sp_journal::entry_text;
use sp_outside::{Sink, write_all};
use sp_schedule::{Ending, Event, Feed, Parsed, Scenario, ScheduleRefused};
use sp_world::WorldRefused;
use std::alloc::Global;

/// Reads the line that waits. An event is done, and its entry is written.
pub fn play_line<K: Sink>(
    alloc: Global,
    feed: &mut Feed,
    world: &mut Option<World>,
    sink: &mut K,
) -> Result<(), Halt>
    requires ready { is_ready feed.old.waiting ≡ true }
    requires so_far { SoFar feed.old world.old }
    ensures so_far { OnOk result (SoFar feed.new world.new) }
    ensures next { OnOk result (is_ready feed.new.waiting ≡ false) }
    ensures text { OnOk result (text_of feed.new ≡ text_of feed.old) }
    ensures plays { Plays (text_of feed.old) world.old world.new (K.contents sink.old) (K.contents sink.new) result }
    ensures counts { SinkCountsIn result (K.faults sink.old) (K.faults sink.new) }
{
    scheduled_events_are_in_range();
    feed.reads_on();
    are_runs(world);
    match feed.line(alloc) {
        Ok(Parsed::Header) => Ok(()),
        Ok(Parsed::Began(scenario)) => {
            feed.reads_on();
            begin(alloc, scenario, world, sink)
        }
        Ok(Parsed::Event(event)) => {
            feed.reads_on();
            match world {
                Some(world) => play_event(alloc, event, world, sink),
                None => unreachable!(),
            }
        }
        Ok(Parsed::Ended) => Ok(()),
        Err(ScheduleRefused::Bad { line, kind }) => Err(Halt::Read(Ending::Refused { line, kind })),
        Err(ScheduleRefused::Memory) => Err(Halt::Memory),
    }
}

/// What always holds of a world, where there is one.
pub fn are_runs(world: &Option<World>)
    ensures { IfSome world.now IsPast }
{
    if let Some(world) = world {
        world.is_run();
    }
}

/// Makes the world of a header, and writes the first line of its journal.
fn begin<K: Sink>(
    alloc: Global,
    scenario: Scenario,
    world: &mut Option<World>,
    sink: &mut K,
) -> Result<(), Halt>
    requires { IsHeader scenario }
    ensures begins { Begins scenario world.new (K.contents sink.old) (K.contents sink.new) result }
    ensures counts { SinkCountsIn result (K.faults sink.old) (K.faults sink.new) }
{
    match World::make(alloc, scenario) {
        Ok(made) => drop(world.replace(made)),
        Err(_) => return Err(Halt::Memory),
    }
    match write_all(sink, b"journal 1\n") {
        Ok(()) => Ok(()),
        Err(_) => Err(Halt::Sink),
    }
}

/// Does an event, and writes its entry.
fn play_event<K: Sink>(
    alloc: Global,
    event: Event,
    world: &mut World,
    sink: &mut K,
) -> Result<(), Halt>
    requires range { InRange (setting_of world.old.scenario) world.old.events event }
    requires few { length world.old.events < MAX_EVENTS }
    requires going { world.old.stopped ≡ Nothing }
    ensures run { IsPast world.new }
    ensures notes { NotesEvent world.old event world.new (K.contents sink.old) (K.contents sink.new) result }
    ensures counts { SinkCountsIn result (K.faults sink.old) (K.faults sink.new) }
{
    let stepped = world.step(alloc, event);
    world.is_run();
    match stepped {
        Ok(()) => write_last(alloc, world, sink),
        Err(WorldRefused::Forged { .. }) => Err(Halt::Forged),
        Err(WorldRefused::Memory) => Err(Halt::Memory),
    }
}

/// Writes the last entry of a journal.
#[tactic(auto, using(crate::proofs::Worlds::journal_is_short))]
fn write_last<K: Sink>(alloc: Global, world: &World, sink: &mut K) -> Result<(), Halt>
    requires short { IsShort world.now }
    requires some { 0 < length world.now.journal }
    ensures notes { NotesLast world.now.journal (K.contents sink.old) (K.contents sink.new) result }
    ensures counts { SinkCountsIn result (K.faults sink.old) (K.faults sink.new) }
{
    journals_are_countable();
    world.is_run();
    let Some((entry, before)) = world.journal().split_last() else {
        unreachable!()
    };
    let Ok(text) = entry_text(alloc, before.len() as u32 + 1, entry) else {
        return Err(Halt::Memory);
    };
    match write_all(sink, text.as_bytes()) {
        Ok(()) => Ok(()),
        Err(_) => Err(Halt::Sink),
    }
}
