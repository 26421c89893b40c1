// The command `daemon`: the whole input is read as a configuration, and its daemon serves.
ghost use Rattle.std.specs.Prelude.{◌≡◌, ◌≢◌, ◌⊎◌, None as Nothing};
ghost use Rattle.sp_keystate.specs.Starting.{KeepsAll};
ghost use Rattle.std.specs.Io.KnownBytes.{IsAtEnd};
ghost use Rattle.sp_outside.specs.Causes.{Rose};
ghost use Rattle.sp_top.specs.Daemons.{DaemonEnds};
ghost use Rattle.sp_top.specs.Statuses.{served_status};
ghost use Rattle.sp_words.specs.CommandLines.{IsTurns};
ghost use Rattle.sp_service_turns.specs.Outside.{known};

use crate::key_file::key_status;
use crate::{Outcome, Status};
use sp_base::MAX_INPUT_BYTES;
use sp_outside::{Clock, Keeper, ReadRefused, Sink, Source, Wire, read_up_to};
use sp_service::serve;
use sp_service_turns::Served;
use std::alloc::Global;

/// Reads the whole input, and serves as its daemon for so many turns.
#[tactic(auto, using(crate::proofs::Rules::daemon_ends))]
pub fn daemon<S: Source, W: Wire, C: Clock, P: Keeper, K: Sink>(
    alloc: Global,
    turns: u32,
    source: &mut S,
    wire: &mut W,
    clock: &mut C,
    keeper: &mut P,
    sink: &mut K,
) -> Outcome
    requires { IsTurns turns }
    ensures ends { DaemonEnds (S.left source.old) turns result.status
        (known (W.told wire.old) (C.told clock.old) (K.contents sink.old) (P.disk keeper.old) (P.past keeper.old) (P.faults keeper.old))
        (known (W.told wire.new) (C.told clock.new) (K.contents sink.new) (P.disk keeper.new) (P.past keeper.new) (P.faults keeper.new)) }
    ensures kept { KeepsAll (P.disk keeper.old) (P.past keeper.old) (P.past keeper.new) }
    ensures worldless { result.world ≡ Nothing }
    ensures ended { result.status ≡ Status.Done → IsAtEnd (S.left source.new) }
    ensures faultless { result.status ≢ Status.Source → S.faults source.new ≡ S.faults source.old }
    ensures read { result.status ≡ Status.Source → Rose (S.faults source.old) (S.faults source.new) }
    ensures sunk { result.status ≢ Status.Sink → K.faults sink.new ≡ K.faults sink.old }
    ensures write { result.status ≡ Status.Sink → Rose (K.faults sink.old) (K.faults sink.new) }
    ensures keeper { result.status ≡ Status.Keeper → Rose (P.faults keeper.old) (P.faults keeper.new) }
    ensures open { result.status ≡ Status.Wire → Rose (W.failed_opens wire.old) (W.failed_opens wire.new) }
    ensures opens { result.status ≢ Status.Wire → result.status ≢ Status.Sink → W.failed_opens wire.new ≡ W.failed_opens wire.old }
    ensures usage { result.status ≢ Status.Usage }
{
    let input = match read_up_to(alloc, source, MAX_INPUT_BYTES) {
        Ok(input) => input,
        Err(ReadRefused::Failed) => return Outcome::ended(Status::Source),
        Err(ReadRefused::Memory) => return Outcome::ended(Status::Memory),
    };
    let served = serve(
        alloc,
        input.bytes.as_slice(),
        input.is_cut,
        turns,
        wire,
        clock,
        keeper,
        sink,
    );
    Outcome::ended(status_of(served))
}

fn status_of(served: Served) -> Status
    ensures { result ≡ served_status served }
{
    match served {
        Served::Done => Status::Done,
        Served::Refused => Status::Refused,
        Served::Wire => Status::Wire,
        Served::Sink => Status::Sink,
        Served::Memory => Status::Memory,
        Served::Keys(refused) => key_status(refused),
    }
}
