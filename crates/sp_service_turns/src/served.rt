// How a daemon ended, and what it writes then.
ghost use Rattle.std.specs.Prelude.{◌≡◌, ◌≢◌, ◌≤◌, ◌⊎◌};
ghost use Rattle.sp_keystate.specs.declared.refused.KeyRefused.TheVariants.{KeeperFault};
ghost use Rattle.sp_outside.specs.Causes.{Rose};
ghost use Rattle.sp_service_turns.specs.Told.{IsTold, Stops};

use crate::ended::Ended;
use sp_keystate::{KeyRefused, line_of};
use sp_outside::{Sink, write_all};

/// How a daemon ended.
#[derive(Clone, Copy, Debug, PartialEq, Eq)]
pub enum Served {
    /// It made its turns, and its recording is whole.
    Done,
    /// Its configuration is refused.
    Refused,
    /// Its wire couldn't be opened.
    Wire,
    /// The sink took its recording, or the line that tells why it ended, no more.
    Sink,
    /// No memory was left.
    Memory,
    /// Its key file gave no start, or no more indexes.
    Keys(KeyRefused),
}

/// Writes the line of how a daemon ends, and gives that.
pub fn tell<K: Sink>(would: Served, line: &str, sink: &mut K) -> Served
    requires { would ≢ Served.Sink }
    ensures told { IsTold would line.now result (K.contents sink.old) (K.contents sink.new) }
    ensures other { would ≢ Served.Wire → result ≢ Served.Wire }
    ensures later { K.faults sink.old ≤ K.faults sink.new }
    ensures write { result ≡ Served.Sink → Rose (K.faults sink.old) (K.faults sink.new) }
    ensures sunk { result ≢ Served.Sink → K.faults sink.new ≡ K.faults sink.old }
{
    match write_all(sink, line.as_bytes()) {
        Ok(()) => would,
        Err(_) => Served::Sink,
    }
}

/// How a daemon ends whose turn ended so. That no more indexes could be reserved is written.
pub fn stopped<K: Sink>(ended: Ended, sink: &mut K) -> Served
    ensures stops { Stops ended (K.contents sink.old) (K.contents sink.new) result }
    ensures later { K.faults sink.old ≤ K.faults sink.new }
    ensures keeper { result ≡ Served.Keys KeeperFault → ended ≡ Ended.Keys KeeperFault }
    ensures write { result ≡ Served.Sink → (ended ≡ Ended.Sink) ⊎ Rose (K.faults sink.old) (K.faults sink.new) }
    ensures sunk { result ≢ Served.Sink → K.faults sink.new ≡ K.faults sink.old }
    ensures unopened { result ≢ Served.Wire }
{
    match ended {
        Ended::Sink => Served::Sink,
        Ended::Memory => Served::Memory,
        Ended::Keys(refused) => tell(Served::Keys(refused), line_of(refused), sink),
    }
}
