// The recording of a daemon: each line goes out whole before the next thing happens.
ghost use Rattle.std.specs.Prelude.{◌≡◌, ◌∷◌, [], IfOk, OnOk};
ghost use Rattle.std.specs.Io.KnownBytes.{Appends};
ghost use Rattle.std.specs.String.{string_bytes};
ghost use Rattle.sp_outside.specs.Streams.{AppendsFront};
ghost use Rattle.sp_recording.specs.RecordingText.{line_in, lines_text};
ghost use Rattle.sp_service_turns.specs.Keys.{IfKeysEnd};
ghost use Rattle.sp_service_turns.specs.Turns.{told};
ghost use Rattle.sp_service_turns.specs.Sinks.{SinkFaults};

use crate::Ended;
use sha2::{Digest as _, Sha256};
use sp_base::Memory;
use sp_outside::{Sink, write_all};
use sp_recording::{Digest, LineRef, push_line};
use std::alloc::Global;

/// The digest of what a node answered.
#[tactic(auto, unfolding(crate::specs::Turns::told))]
pub fn told(answer: &[u8]) -> Digest
    ensures { result ≡ told answer.now }
{
    Digest(Sha256::digest(answer))
}

/// The text of one line.
#[tactic(auto, using(crate::proofs::TextLemmas::one_line))]
fn text_of(alloc: Global, line: &LineRef<'_>) -> Result<String, Memory>
    ensures { IfOk result (λ text. string_bytes text ≡ lines_text (line_in line.now ∷ [])) }
{
    let mut text = String::new(alloc);
    push_line(&mut text, line)?;
    Ok(text)
}

/// Writes a line.
pub fn note<K: Sink>(alloc: Global, sink: &mut K, line: &LineRef<'_>) -> Result<(), Ended>
    ensures whole { OnOk result (Appends (K.contents sink.old) (K.contents sink.new) (lines_text (line_in line.now ∷ []))) }
    ensures front { AppendsFront (K.contents sink.old) (K.contents sink.new) (lines_text (line_in line.now ∷ [])) }
    ensures sink { SinkFaults result (K.faults sink.old) (K.faults sink.new) }
    ensures no_keys { IfKeysEnd result ⊥ }
{
    let Ok(text) = text_of(alloc, line) else {
        return Err(Ended::Memory);
    };
    match write_all(sink, text.as_bytes()) {
        Ok(()) => Ok(()),
        Err(_) => Err(Ended::Sink),
    }
}
