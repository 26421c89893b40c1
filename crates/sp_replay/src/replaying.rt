// The command `replay`: reads a schedule, runs it while it comes, and writes its journal.
ghost use Rattle.std.specs.Prelude.{◌≡◌, ◌≢◌, ◌++◌, IfOk, IfSome, OnOk, None};
ghost use Rattle.std.specs.Io.KnownBytes.{IsAtEnd};
ghost use Rattle.sp_outside.specs.Causes.{Rose};
ghost use Rattle.sp_replay.specs.Claims.{Replays, WorldClaims};
ghost use Rattle.sp_replay.specs.Complete.{IsCompleteReplay};
ghost use Rattle.sp_replay.specs.Fronts.{IsBrokenOff};
ghost use Rattle.sp_replay.specs.Played.{HasBuffers};
ghost use Rattle.sp_replay.specs.Playing.{CanEnd, TellsEnd, line_after, status_at};
ghost use Rattle.std.specs.String.{string_bytes};

use crate::halt::Halt;
use crate::output::{push_forged, push_summary_of};
use crate::pieces::play_input;
use crate::{Outcome, Status, World};
use laws_runs_format::every_run;
use sp_base::Memory;
use sp_outside::{Sink, Source, write_all};
use sp_schedule::{
    Ending, a_good_text_is_read, a_reading_is_of_its_text, a_text_has_one_reading, push_refused,
};
use sp_world::WorldRefused;
use std::alloc::Global;

/// Reads a schedule line by line. Each event is done, and its entry is written, before the next line is read.
pub fn replay<S: Source, K: Sink>(alloc: Global, source: &mut S, sink: &mut K) -> Outcome
    ensures wrote { Replays (S.left source.old) result.world result.status (K.contents sink.old) (K.contents sink.new) }
    ensures broken { result.status ≡ Status.Source
        → IsBrokenOff (S.left source.old) (S.left source.new) result.world (K.contents sink.old) (K.contents sink.new) }
    ensures ended { result.status ≡ Status.Done → IsAtEnd (S.left source.new) }
    ensures claims { IfSome result.world WorldClaims }
    ensures faultless { result.status ≢ Status.Source → S.faults source.new ≡ S.faults source.old }
    ensures sunk { result.status ≢ Status.Sink → K.faults sink.new ≡ K.faults sink.old }
    ensures read { result.status ≡ Status.Source → Rose (S.faults source.old) (S.faults source.new) }
    ensures write { result.status ≡ Status.Sink → Rose (K.faults sink.old) (K.faults sink.new) }
    ensures usage { result.status ≢ Status.Usage }
    ensures unopened { result.status ≢ Status.Wire }
    ensures unkept { result.status ≢ Status.Keeper }
    ensures complete { result.status ≢ Status.Source → result.status ≢ Status.Sink → IsCompleteReplay (S.left source.old) result.status }
{
    a_reading_is_of_its_text();
    a_good_text_is_read();
    a_text_has_one_reading();
    let mut world = None;
    match play_input(alloc, &mut world, source, sink) {
        Halt::Read(ending) => tell_end(alloc, Halt::Read(ending), world, sink),
        Halt::Forged => tell_end(alloc, Halt::Forged, world, sink),
        Halt::Source => broken_off(Status::Source, world),
        Halt::Sink => broken_off(Status::Sink, world),
        Halt::Memory => Outcome::ended(Status::Memory),
    }
}

/// Writes the last line of a replay that came to its end.
fn tell_end<K: Sink>(alloc: Global, halt: Halt, world: Option<World>, sink: &mut K) -> Outcome
    requires halt { CanEnd halt world }
    requires buffers { IfSome world HasBuffers }
    ensures tells { TellsEnd (status_at halt) (line_after halt world) world result.world result.status (K.contents sink.old) (K.contents sink.new) }
    ensures claims { IfSome world WorldClaims }
    ensures sunk { result.status ≢ Status.Sink → K.faults sink.new ≡ K.faults sink.old }
    ensures write { result.status ≡ Status.Sink → Rose (K.faults sink.old) (K.faults sink.new) }
{
    claim(&world);
    let Ok(line) = last_line(alloc, halt, &world) else {
        drop(world);
        return Outcome::ended(Status::Memory);
    };
    let status = match write_all(sink, line.as_bytes()) {
        Ok(()) => status_of(halt),
        Err(_) => Status::Sink,
    };
    Outcome { status, world }
}

/// The last line of a replay that came to its end.
fn last_line(alloc: Global, halt: Halt, world: &Option<World>) -> Result<String, Memory>
    requires { CanEnd halt world.now }
    ensures { IfOk result (λ out. string_bytes out ≡ line_after halt world.now) }
{
    let mut out = String::new(alloc);
    match halt {
        Halt::Read(Ending::Refused { line, kind }) => push_refused(&mut out, line, kind)?,
        Halt::Read(Ending::Whole) => push_summary(&mut out, world)?,
        _ => push_stopped(&mut out, world)?,
    }
    Ok(out)
}

/// Appends the summary of a world's journal.
fn push_summary(out: &mut String, world: &Option<World>) -> Result<(), Memory>
    requires { CanEnd (Halt.Read Ending.Whole) world.now }
    ensures { OnOk result (string_bytes out.new ≡ string_bytes out.old ++ line_after (Halt.Read Ending.Whole) world.now) }
{
    match world {
        Some(world) => push_summary_of(out, world),
        None => unreachable!(),
    }
}

/// Appends what is forged.
fn push_stopped(out: &mut String, world: &Option<World>) -> Result<(), Memory>
    requires { CanEnd Halt.Forged world.now }
    ensures { OnOk result (string_bytes out.new ≡ string_bytes out.old ++ line_after Halt.Forged world.now) }
{
    let Some(world) = world else { unreachable!() };
    match world.stopped() {
        Some(WorldRefused::Forged { event, what }) => push_forged(out, *event, what),
        _ => unreachable!(),
    }
}

/// The laws of every run hold of a world.
#[tactic(auto, using(crate::proofs::Worlds::world_claims))]
fn claim(world: &Option<World>)
    requires { IfSome world.now HasBuffers }
    ensures { IfSome world.now WorldClaims }
{
    every_run();
    if let Some(world) = world {
        world.is_run();
    }
}

/// How a replay ends that was halted so.
fn status_of(halt: Halt) -> Status
    ensures { result ≡ status_at halt }
{
    match halt {
        Halt::Read(Ending::Whole) => Status::Done,
        Halt::Read(Ending::Refused { .. }) => Status::Refused,
        Halt::Forged => Status::Forged,
        Halt::Source => Status::Source,
        Halt::Sink => Status::Sink,
        Halt::Memory => Status::Memory,
    }
}

/// A run that something outside ended, with the world of the events before.
fn broken_off(status: Status, world: Option<World>) -> Outcome
    requires { IfSome world HasBuffers }
    ensures is { result ≡ record { status = status; world = world } }
    ensures claims { IfSome world WorldClaims }
{
    claim(&world);
    Outcome { status, world }
}
