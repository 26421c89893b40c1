// The whole program over objects in memory, whose calls may fail, and what it leaves.
use crate::worlds::{frames_as_told, lengths_of};
use sp_outside::{MemoryClock, MemoryKeeper, MemoryWire, PlannedSink, PlannedSource};
use sp_top::run;
use std::alloc::{AllocError, Global};

/// What a run leaves.
#[derive(Clone, Copy, Debug)]
pub(crate) struct Left {
    pub status: u8,
    /// How many events its world has, and how many entries their journal; None where there is no world.
    pub lengths: Option<(usize, usize)>,
    /// How many rows of the first message's frames are true of its world.
    pub frames: usize,
}

/// Runs one word. What is asked of its world is asked here, where the world is let go.
pub(crate) fn run_over(
    alloc: Global,
    word: &str,
    source: &mut PlannedSource<'_>,
    sink: &mut PlannedSink<'_>,
) -> Result<Left, AllocError> {
    let mut words = Vec::new(alloc);
    words.push(String::from_str(alloc, word)?)?;
    let outcome = run(
        alloc,
        words.as_slice(),
        source,
        sink,
        &mut MemoryWire::silent(alloc),
        &mut MemoryClock::new(0),
        &mut MemoryKeeper::new(),
    );
    let lengths = lengths_of(&outcome.world);
    let frames = frames_as_told(alloc, &outcome.world);
    Ok(Left {
        status: outcome.into_code(),
        lengths,
        frames,
    })
}
