// The command `format`: makes the key file, once.
ghost use Rattle.std.specs.Prelude.{◌≡◌, ◌≢◌, List, Option, ℕ, None as Nothing};
ghost use Rattle.sp_keystate.specs.States.{FormatMoments};
ghost use Rattle.sp_outside.specs.Calls.{Call};
ghost use Rattle.sp_outside.specs.Causes.{Rose};
ghost use Rattle.sp_top.specs.Services.{FormatEnds};
ghost use Rattle.sp_top.specs.Statuses.{key_status};
ghost use Rattle.sp_service_turns.specs.Outside.{known};

use crate::told::tell;
use crate::{Outcome, Status};
use sp_keystate::{KeyRefused, format, line_of};
use sp_outside::{Keeper, Sink};

/// Makes of an empty key file one of which no index is reserved and no start is counted, and writes that, or why it can't be made.
pub fn format_key_file<P: Keeper, K: Sink>(keeper: &mut P, sink: &mut K) -> Outcome
    ensures ends { (wire : Option (List Call)) (clock : Option (List ℕ)) → FormatEnds result.status
        (known wire clock (K.contents sink.old) (P.disk keeper.old) (P.past keeper.old) (P.faults keeper.old))
        (known wire clock (K.contents sink.new) (P.disk keeper.new) (P.past keeper.new) (P.faults keeper.new)) }
    ensures moments { FormatMoments (P.disk keeper.old) (P.past keeper.old) (P.past keeper.new) }
    ensures worldless { result.world ≡ Nothing }
    ensures keeper { result.status ≡ Status.Keeper → Rose (P.faults keeper.old) (P.faults keeper.new) }
    ensures sunk { result.status ≢ Status.Sink → K.faults sink.new ≡ K.faults sink.old }
    ensures write { result.status ≡ Status.Sink → Rose (K.faults sink.old) (K.faults sink.new) }
    ensures others { (result.status ≢ Status.Usage) × (result.status ≢ Status.Source) × (result.status ≢ Status.Wire) × (result.status ≢ Status.Memory) }
{
    match format(keeper) {
        Ok(_) => tell(sink, b"formatted\n", Status::Done),
        Err(refused) => tell(sink, line_of(refused).as_bytes(), key_status(refused)),
    }
}

/// The status of a refusal by the key file.
pub fn key_status(refused: KeyRefused) -> Status
    ensures { result ≡ key_status refused }
{
    match refused {
        KeyRefused::KeeperFault => Status::Keeper,
        KeyRefused::Unformatted | KeyRefused::Formatted | KeyRefused::Exhausted { .. } => {
            Status::KeyState
        }
    }
}
