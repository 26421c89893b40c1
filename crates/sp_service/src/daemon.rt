// A daemon: its configuration comes in, its turns are made over the outside, and its recording goes out.
ghost use Rattle.std.specs.Prelude.{◌≡◌, ◌≢◌, ◌≤◌, ◌<◌, ◌^◌, Err, IfErr, IfOk, List, OnOk, Option, ℕ, length};
ghost use Rattle.sp_keystate.specs.Starting.{KeepsAll};
ghost use Rattle.sp_keystate.specs.declared.refused.KeyRefused.TheVariants.{KeeperFault};
ghost use Rattle.sp_outside.specs.declared.wire.TheConstants.{DATAGRAM_BYTES};
ghost use Rattle.sp_outside.specs.Calls.{Call};
ghost use Rattle.sp_outside.specs.Causes.{Rose};
ghost use Rattle.sp_recording.specs.declared.line.TheConstants.{MAX_TURNS};
ghost use Rattle.sp_service.specs.Parts.{BeginsStarted, EndsConfigured, EndsStarted};
ghost use Rattle.sp_service.specs.Served.{Begins, BeginsConfigured, Ends, ports_of};
ghost use Rattle.sp_service.specs.Starts.{IsOpening};
ghost use Rattle.sp_service.specs.Fits.{Fits};
ghost use Rattle.sp_service.specs.NodeParts.{IsKeyOf, peers_of};
ghost use Rattle.sp_service_turns.specs.Outside.{KeptFile, known};
ghost use Rattle.sp_service_turns.specs.Served.{opening_of};
ghost use Rattle.sp_service_turns.specs.Told.{IsTold};
ghost use Rattle.sp_topology.specs.Ranges.{IsTopology};

use crate::configured::{Configured, configure};
use crate::fitting::Fitted;
use crate::ready::{neighbours_at, ports_of, room, total};
use crate::starts::station_at;
use sp_config::Config;
use sp_keystate::Started;
use sp_outside::{Clock, Keeper, Sink, Wire, write_all};
use sp_service_station::Station;
use sp_service_turns::{Daemon, Peer, Served, open, opening_of, serve as make_turns};
use std::alloc::Global;

/// Serves as the daemon of a configuration for so many turns. A text that `is_cut` had more bytes than may be read, and is refused for that.
///
/// A failed receive or send is a lost datagram, which the end line counts.
#[tactic(auto)]
pub fn serve<W: Wire, C: Clock, P: Keeper, K: Sink>(
    alloc: Global,
    text: &[u8],
    is_cut: bool,
    turns: u32,
    wire: &mut W,
    clock: &mut C,
    keeper: &mut P,
    sink: &mut K,
) -> Served
    requires { turns ≤ MAX_TURNS }
    ensures ends { Ends text.now is_cut turns
        (known (W.told wire.old) (C.told clock.old) (K.contents sink.old) (P.disk keeper.old) (P.past keeper.old) (P.faults keeper.old))
        (known (W.told wire.new) (C.told clock.new) (K.contents sink.new) (P.disk keeper.new) (P.past keeper.new) (P.faults keeper.new)) result }
    ensures kept { KeepsAll (P.disk keeper.old) (P.past keeper.old) (P.past keeper.new) }
    ensures open { result ≡ Served.Wire → Rose (W.failed_opens wire.old) (W.failed_opens wire.new) }
    ensures opens { result ≢ Served.Wire → result ≢ Served.Sink → W.failed_opens wire.new ≡ W.failed_opens wire.old }
    ensures keeper { result ≡ Served.Keys KeeperFault → Rose (P.faults keeper.old) (P.faults keeper.new) }
    ensures write { result ≡ Served.Sink → Rose (K.faults sink.old) (K.faults sink.new) }
    ensures sunk { result ≢ Served.Sink → K.faults sink.new ≡ K.faults sink.old }
{
    match start(alloc, text, is_cut, wire, keeper, sink) {
        Ok(daemon) => make_turns(alloc, daemon, turns, wire, clock, keeper, sink),
        Err(ended) => ended,
    }
}

/// The daemon of a configuration, at its start.
///
/// First the configuration is judged, then the wire is opened, then a start is taken from the key file, and then the first line is written: the first
/// of these that fails ends it.
#[tactic(auto, using(crate::proofs::Rules::started))]
pub fn start<W: Wire, P: Keeper, K: Sink>(
    alloc: Global,
    text: &[u8],
    is_cut: bool,
    wire: &mut W,
    keeper: &mut P,
    sink: &mut K,
) -> Result<Daemon<Station>, Served>
    ensures begins { (clock : Option (List ℕ)) → IfOk result (Begins text.now is_cut
        (known (W.told wire.old) clock (K.contents sink.old) (P.disk keeper.old) (P.past keeper.old) (P.faults keeper.old))
        (known (W.told wire.new) clock (K.contents sink.new) (P.disk keeper.new) (P.past keeper.new) (P.faults keeper.new))) }
    ensures ended { (clock : Option (List ℕ)) (turns : ℕ) → IfErr result (Ends text.now is_cut turns
        (known (W.told wire.old) clock (K.contents sink.old) (P.disk keeper.old) (P.past keeper.old) (P.faults keeper.old))
        (known (W.told wire.new) clock (K.contents sink.new) (P.disk keeper.new) (P.past keeper.new) (P.faults keeper.new))) }
    ensures kept { KeepsAll (P.disk keeper.old) (P.past keeper.old) (P.past keeper.new) }
    ensures faultless { OnOk result (P.faults keeper.new ≡ P.faults keeper.old) }
    ensures open { result ≡ Err Served.Wire → Rose (W.failed_opens wire.old) (W.failed_opens wire.new) }
    ensures opens { result ≢ Err Served.Wire → result ≢ Err Served.Sink → W.failed_opens wire.new ≡ W.failed_opens wire.old }
    ensures keeper { result ≡ Err (Served.Keys KeeperFault) → Rose (P.faults keeper.old) (P.faults keeper.new) }
    ensures later { OnOk result (K.faults sink.old ≤ K.faults sink.new) }
    ensures write { result ≡ Err Served.Sink → Rose (K.faults sink.old) (K.faults sink.new) }
    ensures sunk { result ≢ Err Served.Sink → K.faults sink.new ≡ K.faults sink.old }
{
    if is_cut {
        return Err(refuse(b"refused 0 TooBig\n", sink));
    }
    match configure(alloc, text) {
        Ok(Configured::Fits(config, fitted)) => {
            start_configured(alloc, &config, fitted, wire, keeper, sink)
        }
        Ok(Configured::Refused(line)) => Err(refuse(line.as_slice(), sink)),
        Err(_) => Err(Served::Memory),
    }
}

/// Writes the line that refuses a configuration.
fn refuse<K: Sink>(line: &[u8], sink: &mut K) -> Served
    ensures told { IsTold Served.Refused line.now result (K.contents sink.old) (K.contents sink.new) }
    ensures write { result ≡ Served.Sink → Rose (K.faults sink.old) (K.faults sink.new) }
    ensures sunk { result ≢ Served.Sink → K.faults sink.new ≡ K.faults sink.old }
{
    match write_all(sink, line) {
        Ok(()) => Served::Refused,
        Err(_) => Served::Sink,
    }
}

/// The daemon of a configuration that fits its topology, at its start.
#[tactic(auto, using(crate::proofs::Endings::forgotten, crate::proofs::Endings::kept_quiet))]
fn start_configured<W: Wire, P: Keeper, K: Sink>(
    alloc: Global,
    config: &Config,
    fitted: Fitted,
    wire: &mut W,
    keeper: &mut P,
    sink: &mut K,
) -> Result<Daemon<Station>, Served>
    requires fits { Fits config.now fitted.topology }
    requires topology { IsTopology fitted.topology }
    requires key { IsKeyOf config.now fitted.topology.height fitted.key }
    ensures begins { (clock : Option (List ℕ)) → IfOk result (BeginsConfigured config.now fitted.topology
        (known (W.told wire.old) clock (K.contents sink.old) (P.disk keeper.old) (P.past keeper.old) (P.faults keeper.old))
        (known (W.told wire.new) clock (K.contents sink.new) (P.disk keeper.new) (P.past keeper.new) (P.faults keeper.new))) }
    ensures ended { (clock : Option (List ℕ)) (turns : ℕ) → IfErr result (EndsConfigured config.now fitted.topology turns
        (known (W.told wire.old) clock (K.contents sink.old) (P.disk keeper.old) (P.past keeper.old) (P.faults keeper.old))
        (known (W.told wire.new) clock (K.contents sink.new) (P.disk keeper.new) (P.past keeper.new) (P.faults keeper.new))) }
    ensures kept { KeepsAll (P.disk keeper.old) (P.past keeper.old) (P.past keeper.new) }
    ensures faultless { OnOk result (P.faults keeper.new ≡ P.faults keeper.old) }
    ensures open { result ≡ Err Served.Wire → Rose (W.failed_opens wire.old) (W.failed_opens wire.new) }
    ensures opens { result ≢ Err Served.Wire → result ≢ Err Served.Sink → W.failed_opens wire.new ≡ W.failed_opens wire.old }
    ensures keeper { result ≡ Err (Served.Keys KeeperFault) → Rose (P.faults keeper.old) (P.faults keeper.new) }
    ensures later { OnOk result (K.faults sink.old ≤ K.faults sink.new) }
    ensures write { result ≡ Err Served.Sink → Rose (K.faults sink.old) (K.faults sink.new) }
    ensures sunk { result ≢ Err Served.Sink → K.faults sink.new ≡ K.faults sink.old }
{
    let Ok(peers) = neighbours_at(alloc, config, &fitted.topology) else {
        return Err(Served::Memory);
    };
    let Ok(buffer) = room(alloc) else {
        return Err(Served::Memory);
    };
    match open(
        ports_of(config),
        total(fitted.topology.height),
        wire,
        keeper,
        sink,
    ) {
        Ok(started) => start_node(alloc, config, fitted, started, peers, buffer, sink),
        Err(ended) => Err(ended),
    }
}

/// The daemon whose wire is open, and whose start was taken.
fn start_node<K: Sink>(
    alloc: Global,
    config: &Config,
    fitted: Fitted,
    started: Started,
    peers: Vec<Peer>,
    buffer: Vec<u8>,
    sink: &mut K,
) -> Result<Daemon<Station>, Served>
    requires fits { Fits config.now fitted.topology }
    requires topology { IsTopology fitted.topology }
    requires key { IsKeyOf config.now fitted.topology.height fitted.key }
    requires opening { IsOpening fitted.topology (opening_of started) }
    requires peers { peers.items ≡ peers_of config.now }
    requires few { length peers.items < 2 ^ 16 }
    requires room { DATAGRAM_BYTES ≤ length buffer.items }
    ensures begins { IfOk result (BeginsStarted config.now fitted.topology started (K.contents sink.old) (K.contents sink.new)) }
    ensures ended { (wire : Option (List Call)) (clock : Option (List ℕ)) (file : KeptFile) (turns : ℕ)
        → IfErr result (λ ended. EndsStarted config.now fitted.topology turns started ended
        (record { wire = wire; clock = clock; text = K.contents sink.old; file = file })
        (record { wire = wire; clock = clock; text = K.contents sink.new; file = file })) }
    ensures unopened { result ≢ Err Served.Wire }
    ensures unkept { result ≢ Err (Served.Keys KeeperFault) }
    ensures later { OnOk result (K.faults sink.old ≤ K.faults sink.new) }
    ensures write { result ≡ Err Served.Sink → Rose (K.faults sink.old) (K.faults sink.new) }
    ensures sunk { result ≢ Err Served.Sink → K.faults sink.new ≡ K.faults sink.old }
{
    let opening = opening_of(&started);
    match station_at(alloc, config, fitted, opening) {
        Ok(station) => Daemon::begin(alloc, station, started.state, peers, buffer, &opening, sink),
        Err(_) => Err(Served::Memory),
    }
}
