// The one line of a command that has no more to write.
ghost use Rattle.std.specs.Prelude.{◌≡◌, ◌≢◌, None as Nothing};
ghost use Rattle.sp_outside.specs.Causes.{Rose};
ghost use Rattle.sp_top.specs.Services.{IsTold};

use crate::{Outcome, Status};
use sp_outside::{Sink, write_all};

/// Writes a line, with which the run ends so.
pub fn tell<K: Sink>(sink: &mut K, line: &[u8], status: Status) -> Outcome
    requires { status ≢ Status.Sink }
    ensures told { IsTold status line.now result.status (K.contents sink.old) (K.contents sink.new) }
    ensures worldless { result.world ≡ Nothing }
    ensures others { result.status ≢ Status.Sink → result.status ≡ status }
    ensures sunk { result.status ≢ Status.Sink → K.faults sink.new ≡ K.faults sink.old }
    ensures write { result.status ≡ Status.Sink → Rose (K.faults sink.old) (K.faults sink.new) }
{
    match write_all(sink, line) {
        Ok(()) => Outcome::ended(status),
        Err(_) => Outcome::ended(Status::Sink),
    }
}
