// The whole program over any reader, writer, wire, clock and key file: words and input go in, output and a number come out.
ghost use Rattle.std.specs.Prelude.{◌≡◌, ◌⊎◌, IfOk, OnErr, false, map, true};
ghost use Rattle.std.specs.String.{string_bytes};
ghost use Rattle.sp_top.specs.Commands.{BySaid};
ghost use Rattle.sp_top.specs.Complete.{reads, writes_at_end};
ghost use Rattle.spinesd.specs.Ended.{Ended};

use crate::standard::{StandardSink, StandardSource};
use sp_outside::{Clock, Keeper, Wire};
use sp_top::{Status, run};
use std::alloc::{AllocError, Global};
use std::io::{Read, Write};

/// What the program leaves: the number with which it ends, and the reader and the writer.
#[derive(Drop)]
pub struct Finished<R: Read, W: Write> {
    /// 0 done, 2 usage, 3 refused, 4 forged, 5 source, 6 sink, 7 wire, 8 keeper, 9 memory, 10 mismatch, 11 unanswered, 12 fewer paths, 13 key state.
    pub code: u8,
    pub reader: R,
    pub writer: W,
}

/// Runs the words of a command line, where there was memory for them.
pub fn program<R: Read, W: Write, N: Wire + Drop, C: Clock + Drop, P: Keeper + Drop>(
    alloc: Global,
    words: Result<Vec<String>, AllocError>,
    reader: R,
    writer: W,
    mut wire: N,
    mut clock: C,
    mut keeper: P,
) -> Finished<R, W>
    ensures ended { IfOk words (λ words. Ended (map string_bytes words.items) (R.remaining reader) (R.remaining result.reader)
        (W.contents writer) (W.contents result.writer) result.code) }

    // no word was kept, so none is run
    ensures wordless { OnErr words ((result.code ≡ 9) × (result.reader ≡ reader) × (result.writer ≡ writer)) }
    ensures unread { IfOk words (λ words. BySaid (map string_bytes words.items) (λ said. reads said ≡ false → result.reader ≡ reader)) }
    ensures quiet { IfOk words (λ words. BySaid (map string_bytes words.items)
        (λ said. writes_at_end said ≡ true → (result.code ≡ 5) ⊎ (result.code ≡ 9) → result.writer ≡ writer)) }
{
    let Ok(words) = words else {
        return Finished {
            code: Status::Memory.code(),
            reader,
            writer,
        };
    };
    let mut source = StandardSource::new(reader);
    let mut sink = StandardSink::new(writer);
    let outcome = run(
        alloc,
        words.as_slice(),
        &mut source,
        &mut sink,
        &mut wire,
        &mut clock,
        &mut keeper,
    );
    Finished {
        code: outcome.into_code(),
        reader: source.into_reader(),
        writer: sink.into_writer(),
    }
}
