// Many turns of a daemon, one after another, to its last line.
ghost use Rattle.std.specs.Prelude.{◌≡◌, ◌≢◌, ◌≤◌, Err, IfErr, OnOk};
ghost use Rattle.sp_keystate.specs.declared.refused.KeyRefused.TheVariants.{KeeperFault};
ghost use Rattle.sp_outside.specs.Causes.{Rose};
ghost use Rattle.sp_recording.specs.declared.line.TheConstants.{MAX_TURNS};
ghost use Rattle.sp_service_turns.specs.Outside.{known};
ghost use Rattle.sp_service_turns.specs.Daemons.{EndsAfter, HasMade};
ghost use Rattle.sp_service_turns.specs.Keys.{HoldsKeys, KeepsKeys};

use crate::daemon::Daemon;
use crate::node::Core;
use crate::served::Served;
use sp_outside::{Clock, Keeper, Sink, Wire};
use std::alloc::Global;

/// Makes so many turns with a daemon that has made none, and ends it. The neighbours are polled in a cycle, in the order of the list, which is that of their
/// ids.
pub fn serve<N: Core + Drop, W: Wire, C: Clock, P: Keeper, K: Sink>(
    alloc: Global,
    mut daemon: Daemon<N>,
    turns: u32,
    wire: &mut W,
    clock: &mut C,
    keeper: &mut P,
    sink: &mut K,
) -> Served
    requires turns { turns ≤ MAX_TURNS }
    requires fresh { (daemon.turns ≡ 0) × (daemon.lost ≡ 0) }
    requires held { HoldsKeys (P.disk keeper.old) daemon.keys (N.indexes daemon.node) }
    ensures ends { EndsAfter N.steps N.indexes daemon.peers.items turns daemon.node daemon.keys
        (known (W.told wire.old) (C.told clock.old) (K.contents sink.old) (P.disk keeper.old) (P.past keeper.old) (P.faults keeper.old))
        (known (W.told wire.new) (C.told clock.new) (K.contents sink.new) (P.disk keeper.new) (P.past keeper.new) (P.faults keeper.new)) result }
    ensures kept { KeepsKeys daemon.keys (P.disk keeper.old) (P.past keeper.old) (P.past keeper.new) }
    ensures unopened { result ≢ Served.Wire }
    ensures opens { W.failed_opens wire.new ≡ W.failed_opens wire.old }
    ensures keeper { result ≡ Served.Keys KeeperFault → Rose (P.faults keeper.old) (P.faults keeper.new) }
    ensures write { result ≡ Served.Sink → Rose (K.faults sink.old) (K.faults sink.new) }
    ensures sunk { result ≢ Served.Sink → K.faults sink.new ≡ K.faults sink.old }
{
    match make_turns(alloc, &mut daemon, turns, wire, clock, keeper, sink) {
        Ok(()) => daemon.finish(alloc, sink),
        Err(ended) => ended,
    }
}

/// Makes so many turns with a daemon that has made none.
fn make_turns<N: Core + Drop, W: Wire, C: Clock, P: Keeper, K: Sink>(
    alloc: Global,
    daemon: &mut Daemon<N>,
    turns: u32,
    wire: &mut W,
    clock: &mut C,
    keeper: &mut P,
    sink: &mut K,
) -> Result<(), Served>
    requires turns { turns ≤ MAX_TURNS }
    requires fresh { (daemon.old.turns ≡ 0) × (daemon.old.lost ≡ 0) }
    requires held { HoldsKeys (P.disk keeper.old) daemon.old.keys (N.indexes daemon.old.node) }
    ensures made { OnOk result (HasMade N.steps N.indexes turns daemon.old daemon.new
        (known (W.told wire.old) (C.told clock.old) (K.contents sink.old) (P.disk keeper.old) (P.past keeper.old) (P.faults keeper.old))
        (known (W.told wire.new) (C.told clock.new) (K.contents sink.new) (P.disk keeper.new) (P.past keeper.new) (P.faults keeper.new))) }
    ensures ended { IfErr result (EndsAfter N.steps N.indexes daemon.old.peers.items turns daemon.old.node daemon.old.keys
        (known (W.told wire.old) (C.told clock.old) (K.contents sink.old) (P.disk keeper.old) (P.past keeper.old) (P.faults keeper.old))
        (known (W.told wire.new) (C.told clock.new) (K.contents sink.new) (P.disk keeper.new) (P.past keeper.new) (P.faults keeper.new))) }
    ensures kept { KeepsKeys daemon.old.keys (P.disk keeper.old) (P.past keeper.old) (P.past keeper.new) }
    ensures later { K.faults sink.old ≤ K.faults sink.new }
    ensures unopened { result ≢ Err Served.Wire }
    ensures opens { W.failed_opens wire.new ≡ W.failed_opens wire.old }
    ensures keeper { result ≡ Err (Served.Keys KeeperFault) → Rose (P.faults keeper.old) (P.faults keeper.new) }
    ensures write { result ≡ Err Served.Sink → Rose (K.faults sink.old) (K.faults sink.new) }
    ensures sunk { result ≢ Err Served.Sink → K.faults sink.new ≡ K.faults sink.old }
{
    'turns: for _made in 0..turns {
        daemon.turn(alloc, wire, clock, keeper, sink)?;
    }
    Ok(())
}
