// The command `verify`: the whole input is read, a configuration and a recording, and what comes of it is written.
ghost use Rattle.std.specs.Prelude.{◌≡◌, ◌≢◌, ◌⊎◌, None as Nothing};
ghost use Rattle.std.specs.Io.KnownBytes.{IsAtEnd};
ghost use Rattle.sp_outside.specs.Causes.{Rose};
ghost use Rattle.sp_top.specs.Claims.{Wrote};
ghost use Rattle.sp_top.specs.Statuses.{verified_status};

use crate::command::Command;
use crate::{Outcome, Status};
use sp_base::MAX_INPUT_BYTES;
use sp_outside::{ReadRefused, Sink, Source, read_up_to, write_all};
use sp_service::{Verdict, verify};
use std::alloc::Global;

/// Reads the whole input, and writes what comes of its recording.
pub fn verification<S: Source, K: Sink>(alloc: Global, source: &mut S, sink: &mut K) -> Outcome
    ensures wrote { Wrote (Some Command.Verify) (S.left source.old) result.world result.status (K.contents sink.old) (K.contents sink.new) }
    ensures worldless { result.world ≡ Nothing }
    ensures ended { result.status ≡ Status.Done → IsAtEnd (S.left source.new) }
    ensures quiet { (result.status ≡ Status.Source) ⊎ (result.status ≡ Status.Memory) → sink.new ≡ sink.old }
    ensures faultless { result.status ≢ Status.Source → S.faults source.new ≡ S.faults source.old }
    ensures sunk { result.status ≢ Status.Sink → K.faults sink.new ≡ K.faults sink.old }
    ensures read { result.status ≡ Status.Source → Rose (S.faults source.old) (S.faults source.new) }
    ensures write { result.status ≡ Status.Sink → Rose (K.faults sink.old) (K.faults sink.new) }
    ensures usage { result.status ≢ Status.Usage }
    ensures unopened { result.status ≢ Status.Wire }
    ensures unkept { result.status ≢ Status.Keeper }
{
    let input = match read_up_to(alloc, source, MAX_INPUT_BYTES) {
        Ok(input) => input,
        Err(ReadRefused::Failed) => return Outcome::ended(Status::Source),
        Err(ReadRefused::Memory) => return Outcome::ended(Status::Memory),
    };
    let Ok(judged) = verify(alloc, input.bytes.as_slice(), input.is_cut) else {
        return Outcome::ended(Status::Memory);
    };
    match write_all(sink, judged.line.as_slice()) {
        Ok(()) => Outcome::ended(status_of(judged.verdict)),
        Err(_) => Outcome::ended(Status::Sink),
    }
}

fn status_of(verdict: Verdict) -> Status
    ensures { result ≡ verified_status verdict }
{
    match verdict {
        Verdict::Verified => Status::Done,
        Verdict::Mismatch => Status::Mismatch,
        Verdict::Refused => Status::Refused,
    }
}
