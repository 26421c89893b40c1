// A source read to its end, and a whole text written to a sink.
ghost use Rattle.std.specs.Prelude.{◌≡◌, ◌<◌, ◌≤◌, ◌^◌, false, length, OnOk, IfOk, IsErrOf, vec_len};
ghost use Rattle.std.specs.Io.KnownBytes.{Appends, IsAtEnd};
ghost use Rattle.sp_outside.specs.Causes.{Rose, HasCause};
ghost use Rattle.sp_outside.specs.Streams.{IsInput, ReadsMore, AppendsFront};

use crate::{Failed, Sink, Source};
use std::alloc::{AllocError, Global};

/// How many bytes a call of `read` is asked for, at most.
const PIECE_BYTES: usize = 8_192;

/// What a source gave: its bytes up to a bound, and whether there were more.
#[derive(Drop)]
pub struct Input {
    pub bytes: Vec<u8>,
    pub is_cut: bool,
}

/// Why a source wasn't read to its end.
#[derive(Clone, Copy, Debug, PartialEq, Eq)]
pub enum ReadRefused {
    /// A call of the source failed.
    Failed,
    /// No memory was left for the bytes.
    Memory,
}

/// Reads a source to its end, or up to `most` bytes where it has more.
pub fn read_up_to<S: Source>(
    alloc: Global,
    source: &mut S,
    most: usize,
) -> Result<Input, ReadRefused>
    requires { most < 2 ^ 63 }
    ensures bytes { IfOk result (λ input. IsInput (S.left source.old) most input.bytes.items input.is_cut) }
    ensures within { IfOk result (λ input. vec_len input.bytes ≤ most) }
    ensures rest { IfOk result (λ input. input.is_cut ≡ false → IsAtEnd (S.left source.new)) }
    ensures fine { OnOk result (S.faults source.new ≡ S.faults source.old) }
    ensures memory { IsErrOf result ReadRefused.Memory → S.faults source.new ≡ S.faults source.old }
    ensures failed { IsErrOf result ReadRefused.Failed → Rose (S.faults source.old) (S.faults source.new) }
    ensures later { S.faults source.old ≤ S.faults source.new }
{
    let Ok(mut buffer) = empty_buffer(alloc) else {
        return Err(ReadRefused::Memory);
    };
    let mut bytes = Vec::new(alloc);
    'pieces: while bytes.len() <= most {
        let asked = (most + 1 - bytes.len()).min(buffer.len());
        let count = read_piece(source, &mut buffer[..asked], &mut bytes)?;
        if count == 0 {
            return Ok(Input {
                bytes,
                is_cut: false,
            });
        }
    }
    bytes.truncate(most);
    Ok(Input {
        bytes,
        is_cut: true,
    })
}

/// Memory for one piece.
fn empty_buffer(alloc: Global) -> Result<Vec<u8>, AllocError>
    ensures { IfOk result (λ buffer. 0 < vec_len buffer) }
{
    vec![in alloc; 0u8; PIECE_BYTES]
}

/// Reads one piece by way of the buffer to the end of the bytes, and says how long it is.
fn read_piece<S: Source>(
    source: &mut S,
    buffer: &mut [u8],
    bytes: &mut Vec<u8>,
) -> Result<usize, ReadRefused>
    requires { 0 < length buffer.old }
    ensures more { IfOk result (λ count. ReadsMore (S.left source.old) (S.left source.new) bytes.old.items bytes.new.items count) }
    ensures within { IfOk result (λ count. count ≤ length buffer.old) }
    ensures fine { OnOk result (S.faults source.new ≡ S.faults source.old) }
    ensures memory { IsErrOf result ReadRefused.Memory → S.faults source.new ≡ S.faults source.old }
    ensures failed { IsErrOf result ReadRefused.Failed → Rose (S.faults source.old) (S.faults source.new) }
    ensures later { S.faults source.old ≤ S.faults source.new }
{
    let Ok(count) = source.read(buffer) else {
        return Err(ReadRefused::Failed);
    };
    match bytes.extend_from_slice(&buffer[..count]) {
        Ok(()) => Ok(count),
        Err(_) => Err(ReadRefused::Memory),
    }
}

/// Writes the whole text. Where the sink fails, it has a beginning of it.
pub fn write_all<K: Sink>(sink: &mut K, text: &[u8]) -> Result<(), Failed>
    ensures whole { OnOk result (Appends (K.contents sink.old) (K.contents sink.new) text.now) }
    ensures front { AppendsFront (K.contents sink.old) (K.contents sink.new) text.now }
    ensures cause { HasCause (K.faults sink.old) (K.faults sink.new) result }
{
    let mut done = 0;
    'pieces: while done < text.len() {
        done += sink.write(&text[done..])?;
    }
    Ok(())
}
