// Three turns of a daemon over a wire and a clock in memory, with a node that answers "abc" or nothing. The digests are those of FIPS 180-4's examples.
use sp_base::{Bytes, Memory, NodeId};
use sp_keystate::{RESERVED, format as format_keys, start};
use sp_outside::{
    Coming, DATAGRAM_BYTES, MemoryClock, MemoryKeeper, MemorySink, MemoryWire, PlannedSink, Sink,
    WirePlan,
};
use sp_recording::read;
use sp_service_turns::{
    Core, Daemon, Indexes, Peer, Served, VerifyRefused, opening_of, serve, verify,
};
use std::alloc::Global;
use std::process::Abort;
use std::test::Fail;

/// What three turns record between the first and the last line. The wire fails at the second send and at the client side's second receive.
const RECORDED: &str = "\
tick 1000 ba7816bf8f01cfea414140de5dae2223b00361a396177a9cb410ff61f20015ad\n\
overlay 2 53 e3b0c44298fc1c149afbf4c8996fb92427ae41e4649b934ca495991b7852b855\n\
client 7001 31206f70656e ba7816bf8f01cfea414140de5dae2223b00361a396177a9cb410ff61f20015ad\n\
poll 2 e3b0c44298fc1c149afbf4c8996fb92427ae41e4649b934ca495991b7852b855\n\
tick 1006 ba7816bf8f01cfea414140de5dae2223b00361a396177a9cb410ff61f20015ad\n\
poll 3 e3b0c44298fc1c149afbf4c8996fb92427ae41e4649b934ca495991b7852b855\n\
tick 1006 ba7816bf8f01cfea414140de5dae2223b00361a396177a9cb410ff61f20015ad\n\
stray 5000\n\
poll 2 e3b0c44298fc1c149afbf4c8996fb92427ae41e4649b934ca495991b7852b855\n\
";

/// The first line, of a first start.
const FIRST: &str = "recording 1 1 0 32\n";

/// A line that such a node doesn't make: the digest of no bytes at a tick.
const OTHER: &str = "tick 1007 e3b0c44298fc1c149afbf4c8996fb92427ae41e4649b934ca495991b7852b855\n";

const PEERS: [Peer; 2] = [
    Peer {
        node: NodeId(2),
        port: 9_002,
    },
    Peer {
        node: NodeId(3),
        port: 9_003,
    },
];

/// A node of fixed answers, which signs nothing. All its indexes are reserved at its start.
#[derive(Drop)]
struct Fixed;

impl Core for Fixed {
    ghost steps = { λ _ _ _ _. Unit {0} };

    ghost indexes = { λ _. record { index = 0; bound = 32; total = 32 } };

    fn indexes(&self) -> Indexes {
        Indexes {
            index: 0,
            bound: RESERVED,
            total: RESERVED,
        }
    }

    fn reserve(&mut self, _upto: u64) {}

    fn tick(&mut self, alloc: Global, _now: u64) -> Result<Bytes, Memory> {
        Bytes::copy(alloc, b"abc")
    }

    fn datagram(&mut self, alloc: Global, _node: NodeId, _bytes: &[u8]) -> Result<Bytes, Memory> {
        Bytes::copy(alloc, b"")
    }

    fn request(&mut self, alloc: Global, _port: u16, _bytes: &[u8]) -> Result<Bytes, Memory> {
        Bytes::copy(alloc, b"abc")
    }

    fn poll(&mut self, alloc: Global, _node: NodeId) -> Result<Bytes, Memory> {
        Bytes::copy(alloc, b"")
    }
}

/// Three turns that are recorded in this sink.
fn three_turns<K: Sink>(alloc: Global, sink: &mut K) -> Result<Served, Fail> {
    let overlay = [
        Some(Coming {
            port: 9_002,
            bytes: b"\x53",
        }),
        None,
        Some(Coming {
            port: 5_000,
            bytes: b"\x01",
        }),
    ];
    let client = [Some(Coming {
        port: 7_001,
        bytes: b"1 open",
    })];
    let plan = WirePlan {
        opens: &[],
        receives: &[3],
        sends: &[1],
    };
    let mut wire = MemoryWire::new(alloc, &overlay, &client, plan);
    let mut clock = MemoryClock::planned(&[1_000], 1_006);
    let mut keeper = MemoryKeeper::new();
    let Ok(_) = format_keys(&mut keeper) else {
        return Err("no key file".into());
    };
    let Ok(started) = start(&mut keeper, RESERVED, RESERVED) else {
        return Err("no start".into());
    };
    if started.state.bound != RESERVED {
        return Err("another bound".into());
    }
    let opening = opening_of(&started);
    let peers = Vec::from_slice(alloc, &PEERS)?;
    let buffer = vec![in alloc; 0u8; DATAGRAM_BYTES]?;
    match Daemon::begin(alloc, Fixed, started.state, peers, buffer, &opening, sink) {
        Ok(daemon) => Ok(serve(alloc, daemon, 3, &mut wire, &mut clock, &mut keeper, sink)),
        Err(ended) => Ok(ended),
    }
}

/// How a recording with these lines comes out at such a node.
fn verified(
    rt: &impl Abort,
    alloc: Global,
    last: &str,
) -> Result<Result<u32, VerifyRefused>, Fail> {
    let text = format!(in alloc; "{FIRST}{RECORDED}{last}")?;
    assert!(rt; text.len() < 10_000);
    let reading = read(alloc, 32, &[NodeId(2), NodeId(3)], 0, text.as_bytes())?;
    Ok(verify(alloc, &mut Fixed, 0, &reading))
}

#[test]
fn three_turns_are_recorded_and_verified(rt: HostRuntime) -> Result<(), Fail> {
    let alloc = rt.alloc();
    let mut sink = MemorySink::new(alloc);
    assert_eq!(rt; three_turns(alloc, &mut sink)?, Served::Done);
    let whole = format!(in alloc; "{FIRST}{RECORDED}end turns 3 lost 2\n")?;
    assert!(rt; sink.bytes() == whole.as_bytes());
    assert_eq!(rt; verified(&rt, alloc, "")?, Ok(8));
    Ok(())
}

#[test]
fn the_first_other_digest_and_the_first_bad_line_are_told(rt: HostRuntime) -> Result<(), Fail> {
    let alloc = rt.alloc();
    let answer = verified(&rt, alloc, OTHER)?;
    assert!(rt; matches!(answer, Err(VerifyRefused::Mismatch { line: 11, .. })));
    assert_eq!(rt;
        verified(&rt, alloc, "poll 4\n")?,
        Err(VerifyRefused::Form { line: 11 })
    );
    Ok(())
}

#[test]
fn a_sink_that_fails_ends_the_turns_with_a_beginning(rt: HostRuntime) -> Result<(), Fail> {
    let alloc = rt.alloc();
    let mut sink = PlannedSink::new(alloc, 1_000, &[3]);
    assert_eq!(rt; three_turns(alloc, &mut sink)?, Served::Sink);
    let mut beginning = FIRST.to_string(alloc)?;
    for line in RECORDED.split_inclusive('\n').take(2) {
        beginning.push_str(line)?;
    }
    assert!(rt; sink.bytes() == beginning.as_bytes());
    Ok(())
}
