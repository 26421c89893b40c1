// Recordings of another program, of a node of 1,024 indexes whose one neighbour is node 1: read, and written again line by line.
use sp_base::NodeId;
use sp_recording::{Ending, Line, LineRef, Stage, push_closing, push_line, push_opening, read};
use std::alloc::Global;
use std::process::Abort;
use std::test::Fail;

/// The first lines of a recording.
const BEGINNING: &str = "\
recording 1 48 1024 1024\n\
tick 4 1021be56182979ef8deaeed16ab44f6f96e0bba1b3f68f125a2d399feb0b8af1\n\
client 9002 31206f70656e a08043f53dbd44a54ab61e07b32ba7fa1e30c19cd93bdaff0655c4e658984081\n\
poll 1 65818b4f72f222c4b3613139ffcdf718d3ec6318507fed1109939e167c70b638\n\
tick 29 1021be56182979ef8deaeed16ab44f6f96e0bba1b3f68f125a2d399feb0b8af1\n\
stray 7001\n\
client 9002 32206f70656e 03626eb44e24995decb7b8ef67249b93ee2ab0ace08ff7321e21175af77d0d7d\n\
poll 1 e395c918a5949c40d17a244dc9bac2dc3960178f84df5cd4e4c443c3da9a4476\n\
tick 34 1021be56182979ef8deaeed16ab44f6f96e0bba1b3f68f125a2d399feb0b8af1\n\
overlay 1 5349010105000000000000000200000000000000300000000000000001000000000000000000000000000000e7aeaed6b2420560ee7b95acf486ef8a868dd5e3ee74c93c371056f02d5b6e9c 02db0d2659c9d48bc15f81a388594fc0e3cf4c780fdc27ea21e0671afc37de19\n\
client 9002 33206f70656e 5d9abf9b8c8dfddf2229000252382fd5048820bdd50a52f826d0caa8b067d180\n\
poll 1 1f79265e5f4271103474ca436d4137ac937bd2989e452c5b200ac5ed065aff37\n\
tick 52 1021be56182979ef8deaeed16ab44f6f96e0bba1b3f68f125a2d399feb0b8af1\n\
";

/// The end line of that recording.
const END: &str = "end turns 12 lost 3\n";

/// A line of another recording whose digest is broken, and which is refused.
const BROKEN: &str =
    "client 9003 35206c697374656e d1931a5896fe26f8a59295ae6c1f330673f39c79efe3dda 4fa6c22ffc7d4e7e\n";

/// A line of no row, which stands after the end line of a recording that is refused.
const AFTER: &str = "x\n";

const TOTAL: u64 = 1_024;

const NEIGHBOURS: [NodeId; 1] = [NodeId(1)];

/// Appends a line that was read.
fn push_again(out: &mut String, line: &Line) -> Result<(), Fail> {
    let line = match line {
        Line::Reserve { upto } => LineRef::Reserve { upto: *upto },
        Line::Tick { now, digest } => LineRef::Tick {
            now: *now,
            digest: *digest,
        },
        Line::Overlay {
            node,
            bytes,
            digest,
        } => LineRef::Overlay {
            node: *node,
            bytes: bytes.as_slice(),
            digest: *digest,
        },
        Line::Stray { port } => LineRef::Stray { port: *port },
        Line::Client {
            port,
            bytes,
            digest,
        } => LineRef::Client {
            port: *port,
            bytes: bytes.as_slice(),
            digest: *digest,
        },
        Line::Poll { node, digest } => LineRef::Poll {
            node: *node,
            digest: *digest,
        },
    };
    push_line(out, &line)?;
    Ok(())
}

/// The text of what was read.
fn written(alloc: Global, stage: &Stage) -> Result<String, Fail> {
    let mut out = String::new(alloc);
    if let Some(opening) = stage.opening() {
        push_opening(&mut out, &opening)?;
    }
    for line in stage.lines() {
        push_again(&mut out, line)?;
    }
    if let Stage::End(_, _, closing) = stage {
        push_closing(&mut out, closing)?;
    }
    Ok(out)
}

/// Reads the lines, before which 14 stand, and compares what was read with a front of them.
fn read_to(rt: &impl Abort, alloc: Global, parts: &[&str], front: usize) -> Result<Ending, Fail> {
    let mut text = String::new(alloc);
    let mut good = String::new(alloc);
    for (place, part) in parts.iter().enumerate() {
        text.push_str(part)?;
        if place < front {
            good.push_str(part)?;
        }
    }
    assert!(rt; text.len() < 10_000);
    let reading = read(alloc, TOTAL, &NEIGHBOURS, 14, text.as_bytes())?;
    assert_eq!(rt; written(alloc, &reading.stage)?.as_str(), good.as_str());
    Ok(reading.ending)
}

#[test]
fn a_recording_is_read_and_written_again(rt: HostRuntime) -> Result<(), Fail> {
    let alloc = rt.alloc();
    assert_eq!(rt; read_to(&rt, alloc, &[BEGINNING], 1)?, Ending::Whole);
    assert_eq!(rt; read_to(&rt, alloc, &[BEGINNING, END], 2)?, Ending::Whole);
    Ok(())
}

#[test]
fn the_first_bad_line_is_told_by_its_number_in_the_input(rt: HostRuntime) -> Result<(), Fail> {
    let alloc = rt.alloc();
    assert_eq!(rt;
        read_to(&rt, alloc, &[BEGINNING, BROKEN, END], 1)?,
        Ending::Form { line: 28 }
    );
    assert_eq!(rt;
        read_to(&rt, alloc, &[BEGINNING, END, AFTER], 2)?,
        Ending::Form { line: 29 }
    );
    assert_eq!(rt; read_to(&rt, alloc, &[], 0)?, Ending::Form { line: 15 });
    Ok(())
}
