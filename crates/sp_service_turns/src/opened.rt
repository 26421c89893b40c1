// The opening of a daemon: its wire, and a start from its key file.
ghost use Rattle.std.specs.Prelude.{◌≢◌, ◌≡◌, Err, IfErr, IfOk, List, OnOk, Option, ℕ};
ghost use Rattle.sp_outside.specs.Causes.{Rose};
ghost use Rattle.sp_keystate.specs.Starting.{KeepsAll, StartsSafely};
ghost use Rattle.sp_service_turns.specs.Outside.{known};
ghost use Rattle.sp_service_turns.specs.Served.{FailsToOpen, IsOpened, opening_of};

use crate::served::{Served, tell};
use sp_keystate::{KeyRefused, RESERVED, Started, line_of, start};
use sp_outside::{Keeper, Sink, Wire};
use sp_recording::Opening;

/// The two ports of a daemon. 0 is none.
#[derive(Clone, Copy, Debug, PartialEq, Eq)]
pub struct Ports {
    pub overlay: u16,
    pub client: u16,
}

/// The first line of the recording of a start.
pub fn opening_of(started: &Started) -> Opening
    ensures { result ≡ opening_of started.now }
{
    Opening {
        boot: started.state.boot,
        index: started.first,
        bound: started.state.bound,
    }
}

/// Opens the wire on these ports, and takes a start from the key file, of a key that signs so many messages: the next boot, and indexes. The first
/// of these that fails is written.
pub fn open<W: Wire, P: Keeper, K: Sink>(
    ports: Ports,
    total: u64,
    wire: &mut W,
    keeper: &mut P,
    sink: &mut K,
) -> Result<Started, Served>
    ensures opened { (clock : Option (List ℕ)) → IfOk result (λ started. IsOpened ports total started
        (known (W.told wire.old) clock (K.contents sink.old) (P.disk keeper.old) (P.past keeper.old) (P.faults keeper.old))
        (known (W.told wire.new) clock (K.contents sink.new) (P.disk keeper.new) (P.past keeper.new) (P.faults keeper.new))) }
    ensures failed { (clock : Option (List ℕ)) → IfErr result (FailsToOpen ports total
        (known (W.told wire.old) clock (K.contents sink.old) (P.disk keeper.old) (P.past keeper.old) (P.faults keeper.old))
        (known (W.told wire.new) clock (K.contents sink.new) (P.disk keeper.new) (P.past keeper.new) (P.faults keeper.new))) }
    ensures safe { IfOk result (StartsSafely (P.disk keeper.old) (P.disk keeper.new)) }
    ensures kept { KeepsAll (P.disk keeper.old) (P.past keeper.old) (P.past keeper.new) }
    ensures faultless { OnOk result (P.faults keeper.new ≡ P.faults keeper.old) }
    ensures silent { OnOk result (sink.new ≡ sink.old) }
    ensures wire { result ≡ Err Served.Wire → Rose (W.failed_opens wire.old) (W.failed_opens wire.new) }
    ensures opens { result ≢ Err Served.Wire → result ≢ Err Served.Sink → W.failed_opens wire.new ≡ W.failed_opens wire.old }
    ensures keeper { result ≡ Err (Served.Keys KeyRefused.KeeperFault) → Rose (P.faults keeper.old) (P.faults keeper.new) }
    ensures write { result ≡ Err Served.Sink → Rose (K.faults sink.old) (K.faults sink.new) }
    ensures sunk { result ≢ Err Served.Sink → K.faults sink.new ≡ K.faults sink.old }
{
    if wire.open(ports.overlay, ports.client).is_err() {
        return Err(tell(Served::Wire, "wire\n", sink));
    }
    match start(keeper, RESERVED, total) {
        Ok(started) => Ok(started),
        Err(refused) => Err(tell(Served::Keys(refused), line_of(refused), sink)),
    }
}
