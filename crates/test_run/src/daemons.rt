// Two turns of a daemon over objects in memory: what it records, what `verify` says of that, and how it ends where a call of its outside fails.
use crate::program::run_over;
use crate::signature::output;
use sp_outside::{
    KeeperPlan, MemoryClock, MemoryWire, PlannedKeeper, PlannedSink, PlannedSource, WirePlan,
};
use sp_top::run;
use std::alloc::Global;
use std::str;
use std::test::Fail;

/// No call has this number.
const NEVER: u64 = 1_000_000;

/// More than any text here has.
const WHOLE: usize = 1_000_000;

/// The key file that `format` makes: an open slot with the serial number 1.
const FORMATTED: [u8; 25] = [
    0xA5, 0, 0, 0, 0, 0, 0, 0, 1, 0, 0, 0, 0, 0, 0, 0, 0, 0, 0, 0, 0, 0, 0, 0, 0,
];

/// How the lines of a recording begin where the clock says 5 and 6 and nothing comes; a digest ends each but the first and the last.
const LINES: [&str; 6] = [
    "recording 1 1 0 32",
    "tick 5 ",
    "poll 2 ",
    "tick 6 ",
    "poll 2 ",
    "end turns 2 lost ",
];

/// The open, the receive, the send, the sync of the key file and the write that fail, counted from 0; then the status, and the last line.
const RUNS: [([u64; 5], u8, &str); 8] = [
    ([NEVER, NEVER, NEVER, NEVER, NEVER], 0, "end turns 2 lost 0"),
    ([NEVER, 0, NEVER, NEVER, NEVER], 0, "end turns 2 lost 1"),
    ([NEVER, 1, NEVER, NEVER, NEVER], 0, "end turns 2 lost 1"),
    ([NEVER, NEVER, 0, NEVER, NEVER], 0, "end turns 2 lost 1"),
    ([NEVER, NEVER, 1, NEVER, NEVER], 0, "end turns 2 lost 1"),
    ([0, NEVER, NEVER, NEVER, NEVER], 7, "wire"),
    ([NEVER, NEVER, NEVER, 0, NEVER], 8, "keeper"),
    ([NEVER, NEVER, NEVER, NEVER, 1], 6, "recording 1 1 0 32"),
];

/// The configuration of node 1 of two, with the topology that `topology` signs.
fn configuration(alloc: Global) -> Result<String, Fail> {
    let signed = output(alloc)?;
    let (document, admin) = str::from_utf8(&signed)?.split_once('\n').ok_or("no line")?;
    let mut text = "node = 1\nport = 7001\nclient_port = 7101\nbuffer = 16\nstore = 64\n".to_string(
        alloc,
    )?;
    text.push_str("seed = \"0101010101010101010101010101010101010101010101010101010101010101\"\n")?;
    for (name, value) in [("admin", admin.trim_end()), ("topology", document)] {
        text.push_str(name)?;
        text.push_str(" = \"")?;
        text.push_str(value)?;
        text.push_str("\"\n")?;
    }
    text.push_str("[[peer]]\nid = 2\nport = 7002\n")?;
    text.push_str("key = \"5050505050505050505050505050505050505050505050505050505050505050\"\n")?;
    Ok(text)
}

/// Serves two turns, with the calls failing that a row plans. Gives the status.
fn served(
    alloc: Global,
    config: &str,
    failing: &[u64; 5],
    sink: &mut PlannedSink<'_>,
) -> Result<u8, Fail> {
    let [open, receive, send, sync, _] = *failing;
    let (opens, receives, sends, syncs) = ([open], [receive], [send], [sync]);
    let plan = WirePlan {
        opens: &opens,
        receives: &receives,
        sends: &sends,
    };
    let keys = KeeperPlan {
        reads: &[],
        writes: &[],
        syncs: &syncs,
    };
    let mut words = Vec::new(alloc);
    for word in ["daemon", "--turns", "2"] {
        words.push(word.to_string(alloc)?)?;
    }
    let outcome = run(
        alloc,
        words.as_slice(),
        &mut PlannedSource::new(config.as_bytes(), WHOLE, &[]),
        sink,
        &mut MemoryWire::new(alloc, &[], &[], plan),
        &mut MemoryClock::planned(&[5], 6),
        &mut PlannedKeeper::new(alloc, &FORMATTED, keys),
    );
    Ok(outcome.into_code())
}

/// The status of `verify` for a configuration and a recording, and whether it says this.
fn verified(alloc: Global, config: &str, recording: &str, said: &str) -> Result<(u8, bool), Fail> {
    let mut text = config.to_string(alloc)?;
    text.push_str(recording)?;
    let mut source = PlannedSource::new(text.as_bytes(), WHOLE, &[]);
    let mut sink = PlannedSink::new(alloc, WHOLE, &[]);
    let left = run_over(alloc, "verify", &mut source, &mut sink)?;
    Ok((left.status, sink.bytes() == said.as_bytes()))
}

/// Whether these are the lines of two whole turns.
fn is_whole(recording: &str) -> bool {
    recording.lines().count() == LINES.len()
        && recording
            .lines()
            .zip(LINES)
            .all(|(line, front)| line.starts_with(front))
}

/// The recording with the last digit of its last digest changed.
fn changed(alloc: Global, recording: &str) -> Result<String, Fail> {
    let (front, end) = recording.rsplit_once("\nend").ok_or("no end")?;
    let mut text = String::new(alloc);
    text.push_str(front.get(..front.len().saturating_sub(1)).unwrap_or(""))?;
    text.push_str(if front.ends_with('0') { "1" } else { "0" })?;
    text.push_str("\nend")?;
    text.push_str(end)?;
    Ok(text)
}

#[test]
fn a_failing_call_of_a_daemon_ends_it_or_is_a_lost_datagram(rt: HostRuntime) -> Result<(), Fail> {
    let config = configuration(rt.alloc())?;
    for (failing, status, last) in RUNS {
        let writes = [failing[4]];
        let mut sink = PlannedSink::new(rt.alloc(), WHOLE, &writes);
        let ended = served(rt.alloc(), &config, &failing, &mut sink)?;
        let recording = str::from_utf8(sink.bytes())?;
        assert!(rt;
            ended == status && recording.lines().last() == Some(last),
            "{failing:?}: {ended} {recording}"
        );
        assert!(rt; (status == 0) == is_whole(recording), "{recording}");
        if status == 0 {
            assert!(rt;
                verified(rt.alloc(), &config, recording, "verified 4\n")? == (0, true),
                "{recording}"
            );
        }
    }
    Ok(())
}

#[test]
fn a_changed_digit_of_the_last_digest_is_a_mismatch(rt: HostRuntime) -> Result<(), Fail> {
    let config = configuration(rt.alloc())?;
    let mut sink = PlannedSink::new(rt.alloc(), WHOLE, &[]);
    served(rt.alloc(), &config, &[NEVER; 5], &mut sink)?;
    let recording = str::from_utf8(sink.bytes())?;
    let changed = changed(rt.alloc(), recording)?;
    assert!(rt;
        verified(rt.alloc(), &config, &changed, "")?.0 == 10,
        "{changed}"
    );
    Ok(())
}
