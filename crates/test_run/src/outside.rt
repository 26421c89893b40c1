// Sources and sinks that give and take pieces, and that fail at their first call and in mid-stream.
use crate::first_message::{JOURNAL, SCHEDULE};
use crate::program::{Left, run_over};
use sp_outside::{PlannedSink, PlannedSource};
use std::process::Abort;
use std::test::Fail;

/// No call has this number.
const NEVER: u64 = 1_000_000;

/// More than any text here has.
const WHOLE: usize = 1_000_000;

/// The bytes of a piece that comes, the read that fails, the bytes of a piece that goes, the write that fails, both counted from 0; then the
/// status, how many events the world has, and how many bytes of the journal are in the sink.
type Run = (usize, u64, usize, u64, u8, Option<usize>, usize);

/// The source of one gives a byte a read, and fails at the read after line 13.
const RUNS: [Run; 10] = [
    (1, NEVER, WHOLE, NEVER, 0, Some(11), WHOLE),
    (7, NEVER, WHOLE, NEVER, 0, Some(11), WHOLE),
    (64, NEVER, WHOLE, NEVER, 0, Some(11), WHOLE),
    (WHOLE, NEVER, 1, NEVER, 0, Some(11), WHOLE),
    (WHOLE, NEVER, 5, NEVER, 0, Some(11), WHOLE),
    (16, 0, WHOLE, NEVER, 5, None, 0),
    (16, 2, WHOLE, NEVER, 5, None, 0),
    (1, 192, WHOLE, NEVER, 5, Some(5), 249),
    (WHOLE, NEVER, 8, 0, 6, Some(0), 0),
    (WHOLE, NEVER, 8, 2, 6, Some(1), 10),
];

/// The beginning of the journal.
fn front(len: usize) -> &'static [u8] {
    JOURNAL.as_bytes().get(..len).unwrap_or(JOURNAL.as_bytes())
}

/// How many events the world has, if there is one.
fn events_of(left: &Left) -> Option<usize> {
    match left.lengths {
        Some((events, _)) => Some(events),
        None => None,
    }
}

#[test]
fn an_outside_of_pieces_that_fails_leaves_a_beginning_of_the_journal(
    rt: HostRuntime,
) -> Result<(), Fail> {
    for (source_piece, read, sink_piece, write, status, events, len) in RUNS {
        let reads = [read];
        let writes = [write];
        let mut source = PlannedSource::new(SCHEDULE.as_bytes(), source_piece, &reads);
        let mut sink = PlannedSink::new(rt.alloc(), sink_piece, &writes);
        let left = run_over(rt.alloc(), "replay", &mut source, &mut sink)?;
        assert!(rt;
            (left.status, events_of(&left), sink.bytes()) == (status, events, front(len)),
            "{source_piece} {read} {sink_piece} {write}"
        );
    }
    Ok(())
}

/// How many bytes the header of the first message has.
const HEADER: usize = 139;

/// What stands behind the header, the status, and what was written: the source gives a byte a read, and fails behind it. A bad line or a line after the end
/// that came before is refused; a line that lacks its newline isn't judged.
const BROKEN: [(&str, u8, &str); 7] = [
    ("", 5, "journal 1\n"),
    ("take 3 1\n", 5, "journal 1\n1 empty\n"),
    ("take 3 1\ntake 1 9", 5, "journal 1\n1 empty\n"),
    (
        "take 3 1\ntake 1 9\n",
        3,
        "journal 1\n1 empty\nrefused 10 Range\n",
    ),
    ("end\n", 5, "journal 1\n"),
    ("end\nend", 5, "journal 1\n"),
    ("end\nend\n", 3, "journal 1\nrefused 10 AfterEnd\n"),
];

#[test]
fn what_came_before_a_read_that_fails_is_answered(rt: HostRuntime) -> Result<(), Fail> {
    for (after, status, written) in BROKEN {
        let front = SCHEDULE.get(..HEADER).unwrap_or(SCHEDULE);
        let text = format!(in rt.alloc(); "{front}{after}")?;
        let reads = [text.as_bytes().len() as u64];
        let mut source = PlannedSource::new(text.as_bytes(), 1, &reads);
        let mut sink = PlannedSink::new(rt.alloc(), WHOLE, &[]);
        let left = run_over(rt.alloc(), "replay", &mut source, &mut sink)?;
        assert!(rt; left.status == status, "{after}");
        assert!(rt; sink.bytes() == written.as_bytes(), "{after}");
    }
    Ok(())
}
