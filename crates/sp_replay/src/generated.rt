// The command `generate`: makes the schedule of a number, runs it, and writes the summary and the digest of its journal.
ghost use Rattle.std.specs.Prelude.{◌≡◌, ◌≢◌, ◌≤◌, ◌++◌, List, Option, ℕ, IfOk, IfSome, None, OnOk};
ghost use Rattle.std.specs.String.{string_bytes};
ghost use Rattle.sp_outside.specs.Causes.{Rose};
ghost use Rattle.sp_replay.specs.Claims.{Generates, WorldClaims};
ghost use Rattle.sp_replay.specs.Complete.{IsDoneOrFailed};
ghost use Rattle.sp_replay.specs.Outputs.{IsGenerated, digest_line, generated_text};
ghost use Rattle.sp_replay.specs.Played.{IsShort};

use crate::output::{push_summary_of, whole};
use crate::play::play_all;
use crate::{Outcome, Status, World};
use laws_runs_format::{every_run, generated_forge_nothing};
use sha2::{Digest, Sha256};
use sp_base::Memory;
use sp_generate::make;
use sp_outside::{Sink, write_all};
use sp_text::push_hex;
use std::alloc::Global;

/// Runs the schedule of a number, of which nothing is forged, and writes its summary and the digest of its journal. It reads nothing.
pub fn generate<K: Sink>(alloc: Global, number: u32, sink: &mut K) -> Outcome
    requires { 1 ≤ number }
    ensures wrote { Generates number result.world result.status (K.contents sink.old) (K.contents sink.new) }
    ensures claims { IfSome result.world WorldClaims }
    ensures ends { IsDoneOrFailed result.status }
    ensures quiet { result.status ≡ Status.Memory → sink.new ≡ sink.old }
    ensures sunk { result.status ≢ Status.Sink → K.faults sink.new ≡ K.faults sink.old }
    ensures write { result.status ≡ Status.Sink → Rose (K.faults sink.old) (K.faults sink.new) }
{
    let Ok(world) = world_of(alloc, number) else {
        return Outcome::ended(Status::Memory);
    };
    let Ok(text) = told(alloc, &world) else {
        drop(world);
        return Outcome::ended(Status::Memory);
    };
    match write_all(sink, text.as_bytes()) {
        Ok(()) => Outcome {
            status: Status::Done,
            world: Some(world),
        },
        Err(_) => Outcome {
            status: Status::Sink,
            world: Some(world),
        },
    }
}

/// The world after the schedule of a number.
#[tactic(auto, using(crate::proofs::Worlds::world_claims))]
fn world_of(alloc: Global, number: u32) -> Result<World, Memory>
    ensures run { IfOk result (IsGenerated number) }
    ensures claims { IfOk result WorldClaims }
    ensures short { IfOk result IsShort }
{
    generated_forge_nothing();
    every_run();
    let made = make(alloc, number)?;
    let world = play_all(alloc, made.scenario, made.events.into_vec())?;
    world.is_run();
    Ok(world)
}

/// The summary of a world's journal, and the digest of the whole.
fn told(alloc: Global, world: &World) -> Result<String, Memory>
    requires { IsShort world.now }
    ensures { IfOk result (λ out. string_bytes out ≡ generated_text world.now.journal) }
{
    let journal = whole(alloc, world)?;
    let mut out = String::new(alloc);
    push_summary_of(&mut out, world)?;
    push_digest(&mut out, journal.as_bytes())?;
    Ok(out)
}

/// Appends the digest of a text.
fn push_digest(out: &mut String, text: &[u8]) -> Result<(), Memory>
    ensures { OnOk result (string_bytes out.new ≡ string_bytes out.old ++ digest_line text.now) }
{
    let digest = Sha256::digest(text);
    out.push_str("digest ")?;
    push_hex(out, digest.as_slice())?;
    out.push_str("\n")?;
    Ok(())
}
