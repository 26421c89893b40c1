// The offline commands: the whole input is read, and its answer is written.
ghost use Rattle.std.specs.Prelude.{◌≡◌, ◌≢◌, ◌≤◌, ◌⊎◌, List, None, vec_len, ℕ};
ghost use Rattle.sp_base.specs.declared.limits.TheConstants.{MAX_INPUT_BYTES};
ghost use Rattle.std.specs.Io.KnownBytes.{IsAtEnd};
ghost use Rattle.sp_outside.specs.Causes.{Rose};
ghost use Rattle.sp_top.specs.Claims.{Wrote};
ghost use Rattle.sp_top.specs.Statuses.{verdict_status};
ghost use Rattle.sp_offline.specs.Ranges.{IsOffline};

use crate::command::Command;
use crate::{Outcome, Status};
use sp_base::MAX_INPUT_BYTES;
use sp_offline::{Offline, Verdict, answer};
use sp_outside::{ReadRefused, Sink, Source, read_up_to, write_all};
use std::alloc::Global;

/// Reads the whole input, and writes what the command answers.
pub fn offline<S: Source, K: Sink>(
    alloc: Global,
    command: &Offline,
    source: &mut S,
    sink: &mut K,
) -> Outcome
    requires { IsOffline command.now }
    ensures wrote { Wrote (Some (Command.Offline command.now)) (S.left source.old) result.world result.status (K.contents sink.old) (K.contents sink.new) }
    ensures worldless { result.world ≡ None }
    ensures ended { result.status ≡ Status.Done → IsAtEnd (S.left source.new) }
    ensures quiet { (result.status ≡ Status.Source) ⊎ (result.status ≡ Status.Memory) → sink.new ≡ sink.old }
    ensures faultless { result.status ≢ Status.Source → S.faults source.new ≡ S.faults source.old }
    ensures sunk { result.status ≢ Status.Sink → K.faults sink.new ≡ K.faults sink.old }
    ensures read { result.status ≡ Status.Source → Rose (S.faults source.old) (S.faults source.new) }
    ensures write { result.status ≡ Status.Sink → Rose (K.faults sink.old) (K.faults sink.new) }
    ensures usage { result.status ≢ Status.Usage }
    ensures unopened { result.status ≢ Status.Wire }
    ensures unkept { result.status ≢ Status.Keeper }
{
    let input = match read_up_to(alloc, source, MAX_INPUT_BYTES) {
        Ok(input) => input,
        Err(ReadRefused::Failed) => return Outcome::ended(Status::Source),
        Err(ReadRefused::Memory) => return Outcome::ended(Status::Memory),
    };
    let Ok(answered) = answer(alloc, command, input.bytes.as_slice(), input.is_cut) else {
        return Outcome::ended(Status::Memory);
    };
    match write_all(sink, answered.text.as_slice()) {
        Ok(()) => Outcome::ended(status_of(answered.verdict)),
        Err(_) => Outcome::ended(Status::Sink),
    }
}

fn status_of(verdict: Verdict) -> Status
    ensures { result ≡ verdict_status verdict }
{
    match verdict {
        Verdict::Done => Status::Done,
        Verdict::Fewer => Status::Fewer,
        Verdict::Refused => Status::Refused,
    }
}
