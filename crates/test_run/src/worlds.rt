// The world that a replay leaves: how many of its events were run, and which frames it keeps.
use crate::first_message::SCHEDULE;
use crate::program::{Left, run_over};
use sha2::{Digest, Sha256};
use sp_base::NodeId;
use sp_outside::{PlannedSink, PlannedSource};
use sp_world::World;
use std::alloc::Global;
use std::test::Fail;

/// What so many bytes of the first message's schedule and these after them leave.
fn left_of(alloc: Global, front: usize, after: &str) -> Result<Left, Fail> {
    let front = SCHEDULE.get(..front).unwrap_or(SCHEDULE);
    let text = format!(in alloc; "{front}{after}")?;
    let mut source = PlannedSource::new(text.as_bytes(), 1_000, &[]);
    let mut sink = PlannedSink::new(alloc, 1_000, &[]);
    Ok(run_over(alloc, "replay", &mut source, &mut sink)?)
}

/// How many rows `text` has.
const ROWS: u32 = 8;

/// How many bytes of the schedule stand there, and what after them. All of it, its 11 events and a bad line, a line after the end, its header and a bad
/// line, no events, a bad line in its header, a beginning of its header, and nothing.
fn text(row: u32) -> (usize, &'static str) {
    match row {
        0 => (254, ""),
        1 => (250, "take 1 9\nend\n"),
        2 => (254, "end\n"),
        3 => (139, "rel 2 9 00\nend\n"),
        4 => (139, "end\n"),
        5 => (133, "begin 1\n"),
        6 => (9, ""),
        _ => (0, ""),
    }
}

/// How many events the world has, and how many entries its journal; None where there is no world.
pub(crate) fn lengths_of(world: &Option<World>) -> Option<(usize, usize)> {
    match world {
        Some(world) => Some((world.events().len(), world.journal().len())),
        None => None,
    }
}

/// The same of the world of a row.
fn wanted(row: u32) -> Option<(usize, usize)> {
    match row {
        0 | 1 | 2 => Some((11, 11)),
        3 | 4 => Some((0, 0)),
        _ => None,
    }
}

#[test]
fn a_world_has_the_events_before_the_first_bad_line(rt: HostRuntime) -> Result<(), Fail> {
    for row in 0..ROWS {
        let (front, after) = text(row);
        let left = left_of(rt.alloc(), front, after)?;
        assert!(rt; left.lengths == wanted(row), "row {row}");
    }
    Ok(())
}

/// The two ends and the number of a frame, how long it is, and its SHA-256 in hexadecimal, as another program told them in its journal of the first message.
/// No length where there is no such frame.
const FRAMES: [(u8, u8, u32, usize, &str); 7] = [
    (
        2,
        1,
        1,
        76,
        "f44da8597e91927d90384b9b270bb3b6f6d53c433938c099dec9df394c80d3bf",
    ),
    (
        1,
        2,
        1,
        4_871,
        "9406c1cf63c0fbc45a4a3f5def5220ce6a5610866931bc1f9815399f93c8ceec",
    ),
    (
        3,
        2,
        1,
        76,
        "3a319bfc8c16cdf2d6f40aaa8f3db39780c689fd6ef32643df6777b75a7d6435",
    ),
    (
        2,
        3,
        1,
        4_871,
        "2bf908c028e0d37d53f0f469b9dcb947704dc422e4abed31abf4e88a63a5bb03",
    ),
    (1, 2, 2, 0, ""),
    (1, 2, 0, 0, ""),
    (1, 3, 1, 0, ""),
];

/// Whether a world keeps the frame of a row, or has none where the row has none.
fn is_as_told(alloc: Global, world: &World, row: &(u8, u8, u32, usize, &str)) -> bool {
    let (from, to, number, len, digest) = row;
    match world.frame(NodeId(*from), NodeId(*to), *number) {
        Some(frame) => frame.len() == *len && has_digest(alloc, frame, digest),
        None => *len == 0,
    }
}

/// Whether the frame has this SHA-256.
fn has_digest(alloc: Global, frame: &[u8], digest: &str) -> bool {
    match hex::encode(alloc, Sha256::digest(frame)) {
        Ok(word) => word.as_str() == digest,
        Err(_) => false,
    }
}

/// How many of the rows are true of the world.
pub(crate) fn frames_as_told(alloc: Global, world: &Option<World>) -> usize {
    match world {
        Some(world) => FRAMES
            .iter()
            .filter(|row| is_as_told(alloc, world, row))
            .count(),
        None => 0,
    }
}

#[test]
fn each_frame_of_the_first_message_is_kept_and_no_other(rt: HostRuntime) -> Result<(), Fail> {
    let left = left_of(rt.alloc(), 254, "")?;
    assert!(rt; left.frames == FRAMES.len());
    Ok(())
}
