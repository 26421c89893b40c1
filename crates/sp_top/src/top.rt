// The top call: words and the outside go in, the outcome comes out.
ghost use Rattle.std.specs.Prelude.{◌≡◌, ◌≢◌, ◌⊎◌, IfSome, None, false, map, true};
ghost use Rattle.std.specs.Io.KnownBytes.{Appends, IsAtEnd};
ghost use Rattle.std.specs.String.{string_bytes};
ghost use Rattle.sp_outside.specs.Causes.{Rose};
ghost use Rattle.sp_outside.specs.Streams.{AppendsFront};
ghost use Rattle.sp_top.specs.Outputs.{usage_line};
ghost use Rattle.sp_replay.specs.Claims.{WorldClaims};
ghost use Rattle.sp_top.specs.Claims.{SaidClaims};
ghost use Rattle.sp_top.specs.Commands.{BySaid, IsInRange};
ghost use Rattle.sp_top.specs.Complete.{calls_clock, calls_keeper, calls_wire, reads, writes_at_end};
ghost use Rattle.sp_replay.specs.Fronts.{IsBrokenOff};
ghost use Rattle.sp_top.specs.Services.{KeepsFile};
ghost use Rattle.sp_service_turns.specs.Outside.{known};

use crate::command::{Command, command_of};
use crate::daemon::daemon;
use crate::key_file::format_key_file;
use crate::offline::offline;
use crate::question::question;
use crate::verification::verification;
use crate::{Outcome, Status};
use sp_base::Memory;
use sp_outside::{Clock, Keeper, Sink, Source, Wire, write_all};
use sp_replay::{generate, replay};
use std::alloc::Global;

/// Runs the words over the outside that is handed in.
///
/// `replay` reads a schedule from the source line by line, runs its events in their order, and writes each one's entry to the
/// sink before it reads on. `generate --seed N` makes the schedule of a number, runs it, and writes the summary and the digest of its journal. `topology`
/// reads an administrator's draft, and writes its signed document and the administrator's key. `paths --from S --to D --paths K` reads a
/// graph, and writes its cheapest disjoint paths, or how many there are. `daemon --turns T` reads a configuration, and serves as its daemon over
/// the wire and the clock for so many turns, which it records. `verify` reads a configuration and a recording, and writes how many of its digests
/// agree, or the first that doesn't. `ask --port P --local L --turns T --request LINE` asks a daemon over the wire, and writes its reply. `format` makes
/// the key file of a daemon, once. All other words are refused as a usage fault.
#[tactic(auto, using(crate::proofs::SaidRuns::by_said, crate::proofs::SaidRuns::forgotten, crate::proofs::SaidRuns::kept_by_said))]
pub fn run<S: Source, K: Sink, W: Wire, C: Clock, P: Keeper>(
    alloc: Global,
    words: &[String],
    source: &mut S,
    sink: &mut K,
    wire: &mut W,
    clock: &mut C,
    keeper: &mut P,
) -> Outcome
    // What the program does is what its words say: the output, the daemon's calls and recording, and which runs must be done.
    ensures said { BySaid (map string_bytes words.now) (λ said. SaidClaims said (S.left source.old) result.world result.status
        (known (W.told wire.old) (C.told clock.old) (K.contents sink.old) (P.disk keeper.old) (P.past keeper.old) (P.faults keeper.old))
        (known (W.told wire.new) (C.told clock.new) (K.contents sink.new) (P.disk keeper.new) (P.past keeper.new) (P.faults keeper.new))) }

    // A crash at any moment leaves a key file that takes nothing back.
    ensures kept { BySaid (map string_bytes words.now) (λ said. KeepsFile said (P.disk keeper.old) (P.past keeper.old) (P.past keeper.new)) }

    // The world is a run; after each of its events no buffer is above its bound, and whatever is kept was signed. Where nodes neither start nor stop by
    // events, deliveries are a prefix of what was sent, each message once.
    ensures claims { IfSome result.world WorldClaims }

    // Where the source of a replay fails, the journal of all events that had come was written, and none of their lines is bad.
    ensures broken { BySaid (map string_bytes words.now)
        (λ said. said ≡ Some Command.Replay → result.status ≡ Status.Source
        → IsBrokenOff (S.left source.old) (S.left source.new) result.world (K.contents sink.old) (K.contents sink.new)) }

    // A command that reads is done only where its input was read to the end.
    ensures ended { BySaid (map string_bytes words.now) (λ said. reads said ≡ true → result.status ≡ Status.Done → IsAtEnd (S.left source.new)) }

    // A command calls only what it needs, and where it wrote nothing, the sink wasn't called.
    ensures unread { BySaid (map string_bytes words.now) (λ said. reads said ≡ false → source.new ≡ source.old) }
    ensures uncalled { BySaid (map string_bytes words.now) (λ said. calls_wire said ≡ false → wire.new ≡ wire.old) }
    ensures timeless { BySaid (map string_bytes words.now) (λ said. calls_clock said ≡ false → clock.new ≡ clock.old) }
    ensures untouched { BySaid (map string_bytes words.now) (λ said. calls_keeper said ≡ false → keeper.new ≡ keeper.old) }
    ensures quiet { BySaid (map string_bytes words.now)
        (λ said. writes_at_end said ≡ true → (result.status ≡ Status.Source) ⊎ (result.status ≡ Status.Memory) → sink.new ≡ sink.old) }

    // A status that tells a fault comes only with one.
    ensures faultless { result.status ≢ Status.Source → S.faults source.new ≡ S.faults source.old }
    ensures read { result.status ≡ Status.Source → Rose (S.faults source.old) (S.faults source.new) }
    ensures sunk { result.status ≢ Status.Sink → K.faults sink.new ≡ K.faults sink.old }
    ensures write { result.status ≡ Status.Sink → Rose (K.faults sink.old) (K.faults sink.new) }
    ensures open { result.status ≡ Status.Wire → Rose (W.failed_opens wire.old) (W.failed_opens wire.new) }
    ensures opens { result.status ≢ Status.Wire → result.status ≢ Status.Sink → W.failed_opens wire.new ≡ W.failed_opens wire.old }
    ensures keeper { result.status ≡ Status.Keeper → Rose (P.faults keeper.old) (P.faults keeper.new) }
{
    match command_of(alloc, words) {
        Ok(said) => run_said(alloc, said, source, sink, wire, clock, keeper),
        Err(Memory) => Outcome::ended(Status::Memory),
    }
}

/// Does what the words say.
#[tactic(auto, using(crate::proofs::Rules::said))]
fn run_said<S: Source, K: Sink, W: Wire, C: Clock, P: Keeper>(
    alloc: Global,
    said: Option<Command<'_>>,
    source: &mut S,
    sink: &mut K,
    wire: &mut W,
    clock: &mut C,
    keeper: &mut P,
) -> Outcome
    requires { IfSome said IsInRange }
    ensures said { SaidClaims said.entry (S.left source.old) result.world result.status
        (known (W.told wire.old) (C.told clock.old) (K.contents sink.old) (P.disk keeper.old) (P.past keeper.old) (P.faults keeper.old))
        (known (W.told wire.new) (C.told clock.new) (K.contents sink.new) (P.disk keeper.new) (P.past keeper.new) (P.faults keeper.new)) }
    ensures claims { IfSome result.world WorldClaims }
    ensures unread { reads said.entry ≡ false → source.new ≡ source.old }
    ensures uncalled { calls_wire said.entry ≡ false → wire.new ≡ wire.old }
    ensures timeless { calls_clock said.entry ≡ false → clock.new ≡ clock.old }
    ensures untouched { calls_keeper said.entry ≡ false → keeper.new ≡ keeper.old }
    ensures ended { reads said.entry ≡ true → result.status ≡ Status.Done → IsAtEnd (S.left source.new) }
    ensures kept { KeepsFile said.entry (P.disk keeper.old) (P.past keeper.old) (P.past keeper.new) }
    ensures broken { said.entry ≡ Some Command.Replay → result.status ≡ Status.Source
        → IsBrokenOff (S.left source.old) (S.left source.new) result.world (K.contents sink.old) (K.contents sink.new) }
    ensures quiet { writes_at_end said.entry ≡ true → (result.status ≡ Status.Source) ⊎ (result.status ≡ Status.Memory) → sink.new ≡ sink.old }
    ensures faultless { result.status ≢ Status.Source → S.faults source.new ≡ S.faults source.old }
    ensures read { result.status ≡ Status.Source → Rose (S.faults source.old) (S.faults source.new) }
    ensures sunk { result.status ≢ Status.Sink → K.faults sink.new ≡ K.faults sink.old }
    ensures write { result.status ≡ Status.Sink → Rose (K.faults sink.old) (K.faults sink.new) }
    ensures open { result.status ≡ Status.Wire → Rose (W.failed_opens wire.old) (W.failed_opens wire.new) }
    ensures opens { result.status ≢ Status.Wire → result.status ≢ Status.Sink → W.failed_opens wire.new ≡ W.failed_opens wire.old }
    ensures keeper { result.status ≡ Status.Keeper → Rose (P.faults keeper.old) (P.faults keeper.new) }
{
    match said {
        Some(Command::Replay) => replay(alloc, source, sink),
        Some(Command::Generate(number)) => generate(alloc, number, sink),
        Some(Command::Offline(command)) => offline(alloc, &command, source, sink),
        Some(Command::Verify) => verification(alloc, source, sink),
        Some(Command::Daemon(turns)) => daemon(alloc, turns, source, wire, clock, keeper, sink),
        Some(Command::Ask(asked)) => question(alloc, asked, wire, sink),
        Some(Command::Format) => format_key_file(keeper, sink),
        None => usage(sink),
    }
}

/// Writes that the words are no command.
fn usage<K: Sink>(sink: &mut K) -> Outcome
    ensures written { result.status ≡ Status.Usage → Appends (K.contents sink.old) (K.contents sink.new) usage_line }
    ensures begun { result.status ≡ Status.Sink → AppendsFront (K.contents sink.old) (K.contents sink.new) usage_line }
    ensures status { (result.status ≡ Status.Usage) ⊎ (result.status ≡ Status.Sink) }
    ensures worldless { result.world ≡ None }
    ensures sunk { result.status ≢ Status.Sink → K.faults sink.new ≡ K.faults sink.old }
    ensures write { result.status ≡ Status.Sink → Rose (K.faults sink.old) (K.faults sink.new) }
{
    match write_all(sink, b"usage\n") {
        Ok(()) => Outcome::ended(Status::Usage),
        Err(_) => Outcome::ended(Status::Sink),
    }
}
