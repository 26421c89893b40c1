// One whole turn.
ghost use Rattle.std.specs.Prelude.{◌≡◌, ◌≤◌, IfOk, IsErrOf, OnOk, length};
ghost use Rattle.sp_keystate.specs.declared.refused.KeyRefused.TheVariants.{KeeperFault};
ghost use Rattle.sp_outside.specs.declared.wire.TheConstants.{DATAGRAM_BYTES};
ghost use Rattle.sp_outside.specs.Causes.{Rose};
ghost use Rattle.sp_service_turns.specs.Outside.{known};
ghost use Rattle.sp_service_turns.specs.Done.{Done};
ghost use Rattle.sp_service_turns.specs.Early.{Early, IfBroken};
ghost use Rattle.sp_service_turns.specs.Keys.{HoldsKeys, IfKeysEnd, IfKeysEndBy, KeepsKeys, KeysGoOn, NoMore};
ghost use Rattle.sp_service_turns.specs.Sinks.{SinkFaults};

use crate::ended::Ended;
use crate::node::Core;
use crate::parts::{client, overlay, tick};
use crate::peer::Peer;
use crate::poll::poll_next;
use crate::restock::restock;
use sp_keystate::KeyState;
use sp_outside::{Clock, Keeper, Sink, Wire};
use std::alloc::Global;

/// One turn of a daemon, which polls this neighbour, if there is one: more indexes are reserved if few are left, the clock is read, then the overlay
/// side, then the client side, then comes the poll. Each line is written before the next thing happens. Gives how many datagrams were lost: the
/// receives and sends that failed. A turn that ends early made its first calls, and the recording has a beginning of its lines; one that ends by the
/// key file did nothing.
pub fn turn<N: Core, W: Wire, C: Clock, P: Keeper, K: Sink>(
    alloc: Global,
    node: &mut N,
    keys: &mut KeyState,
    peers: &[Peer],
    polled: Option<Peer>,
    wire: &mut W,
    clock: &mut C,
    keeper: &mut P,
    sink: &mut K,
    buf: &mut [u8],
) -> Result<u32, Ended>
    requires buffer { DATAGRAM_BYTES ≤ length buf.old }
    requires held { HoldsKeys (P.disk keeper.old) keys.old (N.indexes node.old) }
    ensures done { IfOk result (λ lost. Done N.steps N.indexes peers.now polled node.old node.new keys.old keys.new
        (known (W.told wire.old) (C.told clock.old) (K.contents sink.old) (P.disk keeper.old) (P.past keeper.old) (P.faults keeper.old))
        (known (W.told wire.new) (C.told clock.new) (K.contents sink.new) (P.disk keeper.new) (P.past keeper.new) (P.faults keeper.new)) lost) }
    ensures early { IfBroken result (Early N.steps N.indexes peers.now polled node.old keys.old
        (known (W.told wire.old) (C.told clock.old) (K.contents sink.old) (P.disk keeper.old) (P.past keeper.old) (P.faults keeper.old))
        (known (W.told wire.new) (C.told clock.new) (K.contents sink.new) (P.disk keeper.new) (P.past keeper.new) (P.faults keeper.new))) }
    ensures held { OnOk result (HoldsKeys (P.disk keeper.new) keys.new (N.indexes node.new)) }
    ensures on { OnOk result (KeysGoOn keys.old keys.new (P.disk keeper.old) (P.disk keeper.new)) }
    ensures faultless { OnOk result (P.faults keeper.new ≡ P.faults keeper.old) }
    ensures kept { KeepsKeys keys.old (P.disk keeper.old) (P.past keeper.old) (P.past keeper.new) }
    ensures unmoved { IfKeysEnd result ((node.new ≡ node.old) × (W.told wire.new ≡ W.told wire.old) × (C.told clock.new ≡ C.told clock.old)
        × (K.contents sink.new ≡ K.contents sink.old)) }
    ensures spent { IfKeysEndBy result (λ refused. NoMore (N.indexes node.old) keys.old refused
        (record { disk = P.disk keeper.old; past = P.past keeper.old; faults = P.faults keeper.old })
        (record { disk = P.disk keeper.new; past = P.past keeper.new; faults = P.faults keeper.new })) }
    ensures sink { SinkFaults result (K.faults sink.old) (K.faults sink.new) }
    ensures opens { W.failed_opens wire.new ≡ W.failed_opens wire.old }
    ensures keeper { IsErrOf result (Ended.Keys KeeperFault) → Rose (P.faults keeper.old) (P.faults keeper.new) }
{
    restock(alloc, node, keys, keeper, sink)?;
    tick(alloc, node, clock, sink)?;
    let overlay_lost = overlay(alloc, node, peers, wire, sink, buf)?;
    let client_lost = client(alloc, node, wire, sink, buf)?;
    let poll_lost = poll_next(alloc, node, polled, wire, sink)?;
    Ok(overlay_lost + client_lost + poll_lost)
}
