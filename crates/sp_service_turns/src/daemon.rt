// A daemon as a value: it begins with its first line, makes turn after turn, and ends with its last line.
ghost use Rattle.std.specs.Prelude.{◌≡◌, ◌≢◌, ◌≤◌, ◌<◌, ◌*◌, ◌^◌, Err, IfErr, IfOk, OnOk, length};
ghost use Rattle.sp_keystate.specs.declared.refused.KeyRefused.TheVariants.{KeeperFault};
ghost use Rattle.sp_outside.specs.declared.wire.TheConstants.{DATAGRAM_BYTES};
ghost use Rattle.sp_outside.specs.Causes.{Rose};
ghost use Rattle.sp_recording.specs.declared.line.TheConstants.{MAX_TURNS};
ghost use Rattle.sp_service_turns.specs.Outside.{known};
ghost use Rattle.sp_service_turns.specs.Keys.{HoldsKeys, KeepsKeys, KeysGoOn};

use crate::lines::{first_line, last_line};
use crate::node::Core;
use crate::one_turn::turn;
use crate::peer::Peer;
use crate::poll::polled_by;
use crate::served::{Served, stopped};
use sp_keystate::KeyState;
use sp_outside::{Clock, Keeper, Sink, Wire, write_all};
use sp_recording::{Closing, Opening};
use std::alloc::Global;

/// A daemon whose first line is written: its node, what its key file stands for, its neighbours in ascending order of their ids, room for a datagram, how
/// many turns it made, and how many datagrams were lost in them. After a call that ends it, it isn't used again.
#[derive(Drop)]
pub struct Daemon<N> {
    node: N,
    keys: KeyState,
    peers: Vec<Peer>,
    buffer: Vec<u8>,
    turns: u32,
    lost: u32,
    ghost few: { length peers.items < 2 ^ 16 },
    ghost room: { DATAGRAM_BYTES ≤ length buffer.items },
    ghost counted: { turns ≤ MAX_TURNS },
    ghost few_lost: { lost ≤ 4 * turns },
}

impl<N: Core + Drop> Daemon<N> {
    ghost use Rattle.sp_service_turns.specs.Daemons.{EndsTurn, FailsToWrite, Finishes, MakesTurn, first_text};
    ghost use Rattle.sp_service_turns.specs.Runs.{polled_by};
    ghost use Rattle.std.specs.Io.KnownBytes.{Appends};

    /// A daemon that has made no turn yet. Its first line is written.
    pub fn begin<K: Sink>(
        alloc: Global,
        node: N,
        keys: KeyState,
        peers: Vec<Peer>,
        buffer: Vec<u8>,
        opening: &Opening,
        sink: &mut K,
    ) -> Result<Self, Served>
        requires few { length peers.items < 2 ^ 16 }
        requires room { DATAGRAM_BYTES ≤ length buffer.items }
        ensures begun { IfOk result (λ daemon. (daemon.node ≡ node) × (daemon.keys ≡ keys) × (daemon.peers ≡ peers) × (daemon.turns ≡ 0) × (daemon.lost ≡ 0)) }
        ensures written { OnOk result (Appends (K.contents sink.old) (K.contents sink.new) (first_text opening.now)) }
        ensures failed { IfErr result (FailsToWrite (first_text opening.now) (K.contents sink.old) (K.contents sink.new)) }
        ensures later { K.faults sink.old ≤ K.faults sink.new }
        ensures write { result ≡ Err Served.Sink → Rose (K.faults sink.old) (K.faults sink.new) }
        ensures sunk { result ≢ Err Served.Sink → K.faults sink.new ≡ K.faults sink.old }
    {
        let Ok(text) = first_line(alloc, opening) else {
            return Err(Served::Memory);
        };
        match write_all(sink, text.as_bytes()) {
            Ok(()) => Ok(Daemon {
                node,
                keys,
                peers,
                buffer,
                turns: 0,
                lost: 0,
            }),
            Err(_) => Err(Served::Sink),
        }
    }

    /// How many turns it made.
    pub fn turns(&self) -> u32
        ensures { result ≡ self.now.turns }
    {
        self.turns
    }

    /// Makes one turn. A turn that fails ends the daemon: it made its first calls, and the recording has a beginning of its lines; or no more indexes
    /// could be reserved, so nothing was done, and that is written.
    pub fn turn<W: Wire, C: Clock, P: Keeper, K: Sink>(
        &mut self,
        alloc: Global,
        wire: &mut W,
        clock: &mut C,
        keeper: &mut P,
        sink: &mut K,
    ) -> Result<(), Served>
        requires turns { self.old.turns < MAX_TURNS }
        requires held { HoldsKeys (P.disk keeper.old) self.old.keys (N.indexes self.old.node) }
        ensures made { OnOk result (MakesTurn N.steps N.indexes self.old self.new
            (known (W.told wire.old) (C.told clock.old) (K.contents sink.old) (P.disk keeper.old) (P.past keeper.old) (P.faults keeper.old))
            (known (W.told wire.new) (C.told clock.new) (K.contents sink.new) (P.disk keeper.new) (P.past keeper.new) (P.faults keeper.new))) }
        ensures ended { IfErr result (EndsTurn N.steps N.indexes self.old.peers.items (polled_by self.old.peers.items self.old.turns)
            self.old.node self.old.keys
            (known (W.told wire.old) (C.told clock.old) (K.contents sink.old) (P.disk keeper.old) (P.past keeper.old) (P.faults keeper.old))
            (known (W.told wire.new) (C.told clock.new) (K.contents sink.new) (P.disk keeper.new) (P.past keeper.new) (P.faults keeper.new))) }
        ensures held { OnOk result (HoldsKeys (P.disk keeper.new) self.new.keys (N.indexes self.new.node)) }
        ensures on { OnOk result (KeysGoOn self.old.keys self.new.keys (P.disk keeper.old) (P.disk keeper.new)) }
        ensures faultless { OnOk result (P.faults keeper.new ≡ P.faults keeper.old) }
        ensures kept { KeepsKeys self.old.keys (P.disk keeper.old) (P.past keeper.old) (P.past keeper.new) }
        ensures later { K.faults sink.old ≤ K.faults sink.new }
        ensures opens { W.failed_opens wire.new ≡ W.failed_opens wire.old }
        ensures keeper { result ≡ Err (Served.Keys KeeperFault) → Rose (P.faults keeper.old) (P.faults keeper.new) }
        ensures write { result ≡ Err Served.Sink → Rose (K.faults sink.old) (K.faults sink.new) }
        ensures sunk { result ≢ Err Served.Sink → K.faults sink.new ≡ K.faults sink.old }
        ensures unopened { result ≢ Err Served.Wire }
    {
        let polled = polled_by(&self.peers, self.turns);
        match turn(
            alloc,
            &mut self.node,
            &mut self.keys,
            &self.peers,
            polled,
            wire,
            clock,
            keeper,
            sink,
            &mut self.buffer,
        ) {
            Ok(lost) => {
                self.turns += 1;
                self.lost += lost;
                Ok(())
            }
            Err(ended) => Err(stopped(ended, sink)),
        }
    }

    /// Ends it with its last line.
    pub fn finish<K: Sink>(self, alloc: Global, sink: &mut K) -> Served
        ensures ends { Finishes (record { turns = self.turns; lost = self.lost }) (K.contents sink.old) (K.contents sink.new) result }
        ensures write { result ≡ Served.Sink → Rose (K.faults sink.old) (K.faults sink.new) }
        ensures sunk { result ≢ Served.Sink → K.faults sink.new ≡ K.faults sink.old }
    {
        let closing = Closing {
            turns: self.turns,
            lost: self.lost,
        };
        let Ok(text) = last_line(alloc, &closing) else {
            return Served::Memory;
        };
        match write_all(sink, text.as_bytes()) {
            Ok(()) => Served::Done,
            Err(_) => Served::Sink,
        }
    }
}
