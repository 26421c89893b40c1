// The command `ask`: a request goes to a daemon of this machine, and its reply is written.
ghost use Rattle.std.specs.Prelude.{◌≡◌, ◌≢◌, IfOk, List, None as Nothing, Option, ℕ};
ghost use Rattle.sp_client.specs.Requests.{IsRequest};
ghost use Rattle.sp_client.specs.declared.request.Request.{Request};
ghost use Rattle.sp_outside.specs.Causes.{Rose};
ghost use Rattle.std.specs.String.{string_bytes};
ghost use Rattle.sp_service_turns.specs.Outside.{KeptFile};
ghost use Rattle.sp_top.specs.Services.{AskEnds, IsTold, reply_line, unanswered_line};

use crate::told::tell;
use crate::{Outcome, Status};
use sp_base::{Bytes, Memory};
use sp_lines::push_field;
use sp_outside::{Sink, Wire};
use sp_service_ask::{AskRefused, Question, ask};
use sp_words::Ask;
use std::alloc::Global;

/// Asks a daemon of this machine, and writes its reply, or that none came.
#[tactic(auto, using(crate::proofs::Services::replied, crate::proofs::Services::unanswered, crate::proofs::Services::unopened))]
pub fn question<W: Wire, K: Sink>(
    alloc: Global,
    asked: Ask<'_>,
    wire: &mut W,
    sink: &mut K,
) -> Outcome
    requires { (r : Request) × IsRequest asked.request.now r }
    ensures ends { (clock : Option (List ℕ)) (file : KeptFile) → AskEnds asked.entry result.status
        (record { wire = W.told wire.old; clock = clock; text = K.contents sink.old; file = file })
        (record { wire = W.told wire.new; clock = clock; text = K.contents sink.new; file = file }) }
    ensures worldless { result.world ≡ Nothing }
    ensures sunk { result.status ≢ Status.Sink → K.faults sink.new ≡ K.faults sink.old }
    ensures write { result.status ≡ Status.Sink → Rose (K.faults sink.old) (K.faults sink.new) }
    ensures open { result.status ≡ Status.Wire → Rose (W.failed_opens wire.old) (W.failed_opens wire.new) }
    ensures opens { result.status ≢ Status.Wire → result.status ≢ Status.Sink → W.failed_opens wire.new ≡ W.failed_opens wire.old }
    ensures usage { result.status ≢ Status.Usage }
    ensures source { result.status ≢ Status.Source }
    ensures keeper { result.status ≢ Status.Keeper }
{
    let question = Question {
        port: asked.port,
        local: asked.local,
        turns: asked.turns,
        request: asked.request.as_bytes(),
    };
    match ask(alloc, &question, wire) {
        Ok(reply) => tell_reply(alloc, reply, sink),
        Err(AskRefused::Unanswered) => tell_silence(alloc, asked.turns, sink),
        Err(AskRefused::Unopened) => tell(sink, b"wire\n", Status::Wire),
        Err(AskRefused::NoRequest) => unreachable!(),
        Err(AskRefused::Memory) => Outcome::ended(Status::Memory),
    }
}

/// Writes a reply as it came, with a newline.
fn tell_reply<K: Sink>(alloc: Global, reply: Bytes, sink: &mut K) -> Outcome
    ensures told { IsTold Status.Done (reply_line reply) result.status (K.contents sink.old) (K.contents sink.new) }
    ensures worldless { result.world ≡ Nothing }
    ensures sunk { result.status ≢ Status.Sink → K.faults sink.new ≡ K.faults sink.old }
    ensures write { result.status ≡ Status.Sink → Rose (K.faults sink.old) (K.faults sink.new) }
{
    let mut line = reply.into_vec();
    if line.push(b'\n').is_err() {
        return Outcome::ended(Status::Memory);
    }
    tell(sink, line.as_slice(), Status::Done)
}

/// Writes that no reply came.
fn tell_silence<K: Sink>(alloc: Global, turns: u32, sink: &mut K) -> Outcome
    ensures told { IsTold Status.Unanswered (unanswered_line turns) result.status (K.contents sink.old) (K.contents sink.new) }
    ensures worldless { result.world ≡ Nothing }
    ensures sunk { result.status ≢ Status.Sink → K.faults sink.new ≡ K.faults sink.old }
    ensures write { result.status ≡ Status.Sink → Rose (K.faults sink.old) (K.faults sink.new) }
{
    match unanswered_line(alloc, turns) {
        Ok(line) => tell(sink, line.as_bytes(), Status::Unanswered),
        Err(_) => Outcome::ended(Status::Memory),
    }
}

/// The line `unanswered T`.
fn unanswered_line(alloc: Global, turns: u32) -> Result<String, Memory>
    ensures { IfOk result (λ line. string_bytes line ≡ unanswered_line turns) }
{
    let mut line = String::new(alloc);
    line.push_str("unanswered")?;
    push_field(&mut line, u64::from(turns))?;
    line.push_str("\n")?;
    Ok(line)
}
