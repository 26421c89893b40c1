// A schedule that is replayed while it comes: piece by piece from its source, and each line once its newline is there.
ghost use Rattle.std.specs.Prelude.{◌≡◌, ◌<◌, ◌≤◌, ◌+◌, ◌++◌, false, length, IfOk, None as Nothing, OnOk};
ghost use Rattle.sp_base.specs.declared.limits.TheConstants.{MAX_INPUT_BYTES};
ghost use Rattle.std.specs.Io.KnownBytes.{IsAtEnd};
ghost use Rattle.sp_schedule.specs.Feeds.{is_ready, text_of, unfed};
ghost use Rattle.sp_replay.specs.Playing.{HaltsAt, Plays, SinkCounts, SinkCountsIn, SoFar, SourceCounts};

use crate::World;
use crate::halt::Halt;
use crate::line::{are_runs, play_line};
use sp_base::MAX_INPUT_BYTES;
use sp_outside::{Sink, Source};
use sp_schedule::{Ending, Feed};
use std::alloc::{AllocError, Global};

/// How many bytes a call of `read` is asked for, at most.
const PIECE_BYTES: usize = 65_536;

/// Plays the lines that end in a piece. The rest of it waits for the next one.
fn play_piece<K: Sink>(
    alloc: Global,
    feed: &mut Feed,
    world: &mut Option<World>,
    piece: &[u8],
    sink: &mut K,
) -> Result<(), Halt>
    requires next { is_ready feed.old.waiting ≡ false }
    requires size { length (text_of feed.old) + length piece.now ≤ MAX_INPUT_BYTES }
    requires so_far { SoFar feed.old world.old }
    ensures so_far { OnOk result (SoFar feed.new world.new) }
    ensures next { OnOk result (is_ready feed.new.waiting ≡ false) }
    ensures text { OnOk result (text_of feed.new ≡ text_of feed.old ++ piece.now) }
    ensures plays { Plays (text_of feed.old ++ piece.now) world.old world.new (K.contents sink.old) (K.contents sink.new) result }
    ensures counts { SinkCountsIn result (K.faults sink.old) (K.faults sink.new) }
{
    let mut done = 0;
    'lines: while done < piece.len() {
        done += feed.push(&piece[done..]);
        if feed.ready() {
            play_line(alloc, feed, world, sink)?;
        }
    }
    Ok(())
}

/// Reads and plays a source from its start, and says why it reads no further.
pub fn play_input<S: Source, K: Sink>(
    alloc: Global,
    world: &mut Option<World>,
    source: &mut S,
    sink: &mut K,
) -> Halt
    requires { world.old ≡ Nothing }
    ensures halts { HaltsAt (S.left source.old) (S.left source.new) world.new (K.contents sink.old) (K.contents sink.new) result }
    ensures ended { result ≡ Halt.Read Ending.Whole → IsAtEnd (S.left source.new) }
    ensures counts { SinkCounts result (K.faults sink.old) (K.faults sink.new) }
    ensures read { SourceCounts result (S.faults source.old) (S.faults source.new) }
{
    let Ok(mut buffer) = empty_buffer(alloc) else {
        return Halt::Memory;
    };
    let Ok(mut feed) = Feed::new(alloc) else {
        return Halt::Memory;
    };
    play_pieces(alloc, &mut feed, world, source, sink, buffer.as_mut_slice())
}

/// The same piece by piece, each read into the buffer.
fn play_pieces<S: Source, K: Sink>(
    alloc: Global,
    feed: &mut Feed,
    world: &mut Option<World>,
    source: &mut S,
    sink: &mut K,
    buffer: &mut [u8],
) -> Halt
    requires unfed { feed.old ≡ unfed }
    requires worldless { world.old ≡ Nothing }
    requires room { 0 < length buffer.old }
    ensures halts { HaltsAt (S.left source.old) (S.left source.new) world.new (K.contents sink.old) (K.contents sink.new) result }
    ensures ended { result ≡ Halt.Read Ending.Whole → IsAtEnd (S.left source.new) }
    ensures counts { SinkCounts result (K.faults sink.old) (K.faults sink.new) }
    ensures read { SourceCounts result (S.faults source.old) (S.faults source.new) }
{
    let mut total = 0;
    'pieces: loop {
        feed.reads_on();
        are_runs(world);
        let Ok(count) = source.read(buffer) else {
            return Halt::Source;
        };
        if count == 0 {
            return Halt::Read(feed.finish(false));
        }
        let taken = count.min(MAX_INPUT_BYTES - total);
        if let Err(halt) = play_piece(alloc, feed, world, &buffer[..taken], sink) {
            return halt;
        }
        total += taken;
        if taken < count {
            return Halt::Read(feed.finish(true));
        }
    }
}

/// Memory for one piece.
fn empty_buffer(alloc: Global) -> Result<Vec<u8>, AllocError>
    ensures { IfOk result (λ buffer. 0 < length buffer.items) }
{
    vec![in alloc; 0u8; PIECE_BYTES]
}
