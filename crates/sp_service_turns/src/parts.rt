// The parts of a turn before its poll: the tick, and what came on each side.
ghost use Rattle.std.specs.Prelude.{◌≡◌, ◌≤◌, ◌∷◌, [], IfOk, OnErr, OnOk, Some, length};
ghost use Rattle.sp_outside.specs.declared.wire.TheConstants.{DATAGRAM_BYTES};
ghost use Rattle.sp_outside.specs.Calls.{Received, Tells};
ghost use Rattle.sp_service_turns.specs.Keys.{IfKeysEnd};
ghost use Rattle.sp_service_turns.specs.Done.{Came, Overheard, Replied, SentOne, Served, Ticked};
ghost use Rattle.sp_service_turns.specs.Indexes.{UsesAtMost};
ghost use Rattle.sp_service_turns.specs.Early.{EarlyCame, EarlyClient, EarlyOverlay, EarlyReply, EarlyTick};
ghost use Rattle.sp_service_turns.specs.Hearing.{IsWithin, heard_in};
ghost use Rattle.sp_service_turns.specs.Turns.{node_at};
ghost use Rattle.sp_service_turns.specs.Sinks.{SinkFaults};

use crate::ended::{Ended, Heard};
use crate::node::Core;
use crate::note::{note, told};
use crate::peer::Peer;
use sp_base::NodeId;
use sp_outside::{Clock, Side, Sink, Wire};
use sp_recording::LineRef;
use std::alloc::Global;

/// The clock is read, and the node hears of it.
pub fn tick<N: Core, C: Clock, K: Sink>(
    alloc: Global,
    node: &mut N,
    clock: &mut C,
    sink: &mut K,
) -> Result<(), Ended>
    ensures uses { OnOk result (UsesAtMost 2 (N.indexes node.old) (N.indexes node.new)) }
    ensures ticked { OnOk result (Ticked N.steps node.old node.new (C.told clock.old) (C.told clock.new) (K.contents sink.old) (K.contents sink.new)) }
    ensures early { OnErr result (EarlyTick N.steps node.old (C.told clock.old) (C.told clock.new) (K.contents sink.old) (K.contents sink.new)) }
    ensures sink { SinkFaults result (K.faults sink.old) (K.faults sink.new) }
    ensures no_keys { IfKeysEnd result ⊥ }
{
    let now = clock.now_ms();
    let Ok(answer) = node.tick(alloc, now) else {
        return Err(Ended::Memory);
    };
    let digest = told(answer.as_slice());
    note(alloc, sink, &LineRef::Tick { now, digest })
}

/// A receive, whose datagram lies in the buffer.
fn hear<W: Wire>(wire: &mut W, side: Side, buf: &mut [u8]) -> Heard
    requires { DATAGRAM_BYTES ≤ length buf.old }
    ensures within { IsWithin result }
    ensures told { Tells (W.told wire.old) (W.told wire.new) (Received side (heard_in buf.new result) ∷ []) }
    ensures opens { W.failed_opens wire.new ≡ W.failed_opens wire.old }
{
    match wire.receive(side, buf) {
        Ok(None) => Heard::Nothing,
        Ok(Some((port, count))) => Heard::Came { port, count },
        Err(_) => Heard::Lost,
    }
}

/// The neighbour of a port.
fn node_at(peers: &[Peer], port: u16) -> Option<NodeId>
    ensures { result ≡ node_at peers.now port }
{
    let peer = peers.iter().find(|peer| peer.port == port)?;
    Some(peer.node)
}

/// What came on the overlay side, and 1 where it was lost.
pub fn overlay<N: Core, W: Wire, K: Sink>(
    alloc: Global,
    node: &mut N,
    peers: &[Peer],
    wire: &mut W,
    sink: &mut K,
    buf: &mut [u8],
) -> Result<u32, Ended>
    requires { DATAGRAM_BYTES ≤ length buf.old }
    ensures uses { IfOk result (λ _. UsesAtMost 0 (N.indexes node.old) (N.indexes node.new)) }
    ensures heard { IfOk result (λ lost. Overheard N.steps peers.now node.old node.new (W.told wire.old) (W.told wire.new)
        (K.contents sink.old) (K.contents sink.new) lost) }
    ensures early { OnErr result (EarlyOverlay N.steps peers.now node.old (W.told wire.old) (W.told wire.new)
        (K.contents sink.old) (K.contents sink.new)) }
    ensures sink { SinkFaults result (K.faults sink.old) (K.faults sink.new) }
    ensures opens { W.failed_opens wire.new ≡ W.failed_opens wire.old }
    ensures no_keys { IfKeysEnd result ⊥ }
{
    match hear(wire, Side::Overlay, buf) {
        Heard::Nothing => Ok(0),
        Heard::Lost => Ok(1),
        Heard::Came { port, count } => {
            came(alloc, node, peers, port, &buf[..count], sink)?;
            Ok(0)
        }
    }
}

/// A datagram that came on the overlay side: a neighbour's goes to the node, any other is stray.
fn came<N: Core, K: Sink>(
    alloc: Global,
    node: &mut N,
    peers: &[Peer],
    port: u16,
    bytes: &[u8],
    sink: &mut K,
) -> Result<(), Ended>
    ensures uses { OnOk result (UsesAtMost 0 (N.indexes node.old) (N.indexes node.new)) }
    ensures came { OnOk result (Came N.steps (node_at peers.now port) node.old port bytes.now node.new (K.contents sink.old) (K.contents sink.new)) }
    ensures early { OnErr result (EarlyCame N.steps (node_at peers.now port) node.old port bytes.now (K.contents sink.old) (K.contents sink.new)) }
    ensures sink { SinkFaults result (K.faults sink.old) (K.faults sink.new) }
    ensures no_keys { IfKeysEnd result ⊥ }
{
    match node_at(peers, port) {
        Some(from) => arrived(alloc, node, from, port, bytes, sink),
        None => note(alloc, sink, &LineRef::Stray { port }),
    }
}

/// A neighbour's datagram.
fn arrived<N: Core, K: Sink>(
    alloc: Global,
    node: &mut N,
    from: NodeId,
    port: u16,
    bytes: &[u8],
    sink: &mut K,
) -> Result<(), Ended>
    ensures uses { OnOk result (UsesAtMost 0 (N.indexes node.old) (N.indexes node.new)) }
    ensures came { OnOk result (Came N.steps (Some from) node.old port bytes.now node.new (K.contents sink.old) (K.contents sink.new)) }
    ensures early { OnErr result (EarlyCame N.steps (Some from) node.old port bytes.now (K.contents sink.old) (K.contents sink.new)) }
    ensures sink { SinkFaults result (K.faults sink.old) (K.faults sink.new) }
    ensures no_keys { IfKeysEnd result ⊥ }
{
    let Ok(answer) = node.datagram(alloc, from, bytes) else {
        return Err(Ended::Memory);
    };
    let line = LineRef::Overlay {
        node: from,
        bytes,
        digest: told(answer.as_slice()),
    };
    note(alloc, sink, &line)
}

/// A client's request and its reply, and 1 where one of them was lost.
pub fn client<N: Core, W: Wire, K: Sink>(
    alloc: Global,
    node: &mut N,
    wire: &mut W,
    sink: &mut K,
    buf: &mut [u8],
) -> Result<u32, Ended>
    requires { DATAGRAM_BYTES ≤ length buf.old }
    ensures uses { IfOk result (λ _. UsesAtMost 1 (N.indexes node.old) (N.indexes node.new)) }
    ensures served { IfOk result (λ lost. Served N.steps node.old node.new (W.told wire.old) (W.told wire.new)
        (K.contents sink.old) (K.contents sink.new) lost) }
    ensures early { OnErr result (EarlyClient N.steps node.old (W.told wire.old) (W.told wire.new) (K.contents sink.old) (K.contents sink.new)) }
    ensures sink { SinkFaults result (K.faults sink.old) (K.faults sink.new) }
    ensures opens { W.failed_opens wire.new ≡ W.failed_opens wire.old }
    ensures no_keys { IfKeysEnd result ⊥ }
{
    match hear(wire, Side::Client, buf) {
        Heard::Nothing => Ok(0),
        Heard::Lost => Ok(1),
        Heard::Came { port, count } => answer(alloc, node, port, &buf[..count], wire, sink),
    }
}

/// The reply to a request, and 1 where it was lost.
fn answer<N: Core, W: Wire, K: Sink>(
    alloc: Global,
    node: &mut N,
    port: u16,
    bytes: &[u8],
    wire: &mut W,
    sink: &mut K,
) -> Result<u32, Ended>
    ensures uses { IfOk result (λ _. UsesAtMost 1 (N.indexes node.old) (N.indexes node.new)) }
    ensures replied { IfOk result (λ lost. Replied N.steps node.old port bytes.now node.new (W.told wire.old) (W.told wire.new)
        (K.contents sink.old) (K.contents sink.new) lost) }
    ensures silent { OnErr result (W.told wire.new ≡ W.told wire.old) }
    ensures early { OnErr result (EarlyReply N.steps node.old port bytes.now (K.contents sink.old) (K.contents sink.new)) }
    ensures sink { SinkFaults result (K.faults sink.old) (K.faults sink.new) }
    ensures opens { W.failed_opens wire.new ≡ W.failed_opens wire.old }
    ensures no_keys { IfKeysEnd result ⊥ }
{
    let Ok(reply) = node.request(alloc, port, bytes) else {
        return Err(Ended::Memory);
    };
    let line = LineRef::Client {
        port,
        bytes,
        digest: told(reply.as_slice()),
    };
    note(alloc, sink, &line)?;
    Ok(sent(wire, Side::Client, port, reply.as_slice()))
}

/// Sends, and gives 1 where that is lost.
pub fn sent<W: Wire>(wire: &mut W, side: Side, port: u16, bytes: &[u8]) -> u32
    requires { length bytes.now ≤ DATAGRAM_BYTES }
    ensures sent { SentOne (W.told wire.old) (W.told wire.new) side port bytes.now result }
    ensures opens { W.failed_opens wire.new ≡ W.failed_opens wire.old }
{
    match wire.send(side, port, bytes) {
        Ok(()) => 0,
        Err(_) => 1,
    }
}
