// The poll of the next neighbour, which ends a turn.
ghost use Rattle.std.specs.Prelude.{◌≡◌, ◌<◌, ◌^◌, IfOk, OnErr, Some, length};
ghost use Rattle.sp_service_turns.specs.Keys.{IfKeysEnd};
ghost use Rattle.sp_service_turns.specs.Done.{Polled, PolledNext};
ghost use Rattle.sp_service_turns.specs.Indexes.{UsesAtMost};
ghost use Rattle.sp_service_turns.specs.Early.{EarlyPoll};
ghost use Rattle.sp_service_turns.specs.Runs.{polled_by};
ghost use Rattle.sp_service_turns.specs.Sinks.{SinkFaults};

use crate::ended::Ended;
use crate::node::Core;
use crate::note::{note, told};
use crate::parts::sent;
use crate::peer::Peer;
use sp_outside::{Side, Sink, Wire};
use sp_recording::LineRef;
use std::alloc::Global;

/// The poll of one neighbour, and 1 where its frame was lost.
fn poll<N: Core, W: Wire, K: Sink>(
    alloc: Global,
    node: &mut N,
    peer: Peer,
    wire: &mut W,
    sink: &mut K,
) -> Result<u32, Ended>
    ensures uses { IfOk result (λ _. UsesAtMost 0 (N.indexes node.old) (N.indexes node.new)) }
    ensures polled { IfOk result (λ lost. Polled N.steps node.old peer node.new (W.told wire.old) (W.told wire.new)
        (K.contents sink.old) (K.contents sink.new) lost) }
    ensures silent { OnErr result (W.told wire.new ≡ W.told wire.old) }
    ensures early { OnErr result (EarlyPoll N.steps (Some peer) node.old (K.contents sink.old) (K.contents sink.new)) }
    ensures sink { SinkFaults result (K.faults sink.old) (K.faults sink.new) }
    ensures opens { W.failed_opens wire.new ≡ W.failed_opens wire.old }
    ensures no_keys { IfKeysEnd result ⊥ }
{
    let Ok(frame) = node.poll(alloc, peer.node) else {
        return Err(Ended::Memory);
    };
    let line = LineRef::Poll {
        node: peer.node,
        digest: told(frame.as_slice()),
    };
    note(alloc, sink, &line)?;
    Ok(sent(wire, Side::Overlay, peer.port, frame.as_slice()))
}

/// The poll of the next neighbour, if there is one.
pub fn poll_next<N: Core, W: Wire, K: Sink>(
    alloc: Global,
    node: &mut N,
    polled: Option<Peer>,
    wire: &mut W,
    sink: &mut K,
) -> Result<u32, Ended>
    ensures uses { IfOk result (λ _. UsesAtMost 0 (N.indexes node.old) (N.indexes node.new)) }
    ensures polled { IfOk result (λ lost. PolledNext N.steps polled node.old node.new (W.told wire.old) (W.told wire.new)
        (K.contents sink.old) (K.contents sink.new) lost) }
    ensures silent { OnErr result (W.told wire.new ≡ W.told wire.old) }
    ensures early { OnErr result (EarlyPoll N.steps polled node.old (K.contents sink.old) (K.contents sink.new)) }
    ensures sink { SinkFaults result (K.faults sink.old) (K.faults sink.new) }
    ensures opens { W.failed_opens wire.new ≡ W.failed_opens wire.old }
    ensures no_keys { IfKeysEnd result ⊥ }
{
    match polled {
        Some(peer) => poll(alloc, node, peer, wire, sink),
        None => Ok(0),
    }
}

/// The neighbour that a turn polls, in a cycle. None where there is none.
pub fn polled_by(peers: &[Peer], turn: u32) -> Option<Peer>
    requires { length peers.now < 2 ^ 16 }
    ensures { result ≡ polled_by peers.now turn }
{
    if peers.is_empty() {
        return None;
    }
    let place = turn as usize % peers.len();
    Some(peers[place])
}
