// Probes and echoes that no correct neighbour sends, clocks that jump, and the weights of costs.
ghost use Rattle.std.specs.Prelude.{◌≤◌, ◌<◌, ◌↔◌, IsTrue};
ghost use Rattle.std.specs.Option.{ForSome};
ghost use Rattle.sp_measure.specs.declared.opening.TheConstants.{MAX_OPENINGS};

use crate::datagrams::KEY;
use hex::FromHex;
use sha2::{Digest, Sha256};
use sp_base::{MAX_WEIGHT, NodeId};
use sp_frame::Probe;
use sp_measure::{EchoAnswer, MAX_OPENINGS, Meter, Opening, ProbeAnswer};
use std::alloc::Global;
use std::process::Abort;
use std::test::Fail;

/// Proofs by name, made by a program outside the project. Of own probes: `one` of the first, `two` of the first two, `three` of the first three, `second` of
/// the second alone, `life` of the first of the next life, `changed` is `one` with another last bit. Of no probe: `none`. Of probes of the neighbour:
/// `theirs` of the first, `theirs2` of the first two.
const PROOFS: &str = "\
one 09dfe4bf650d3ba1afb78e63507ba3ef296e73d3a999ad78a599d08fd3401639
two ba03ef4931fc12caafc387a551182b439d702ae3addb51bd1c1c2da751859ce6
three 4940ad51d38800a5c3e5d9839096a322100914198dbb8b5bfa0218e821b4fe59
second 5dd9c912fe047378e0a20736c1ed63c66393eb9e08ca0ce2a8d2cc1e0a4d824b
life e688bf2b8c7cbd0c214fc03ecb5f2ebd4519b666fba69221d79ee9fc3348a98b
changed 09dfe4bf650d3ba1afb78e63507ba3ef296e73d3a999ad78a599d08fd3401638
none 0000000000000000000000000000000000000000000000000000000000000000
theirs 2b3f4e15ef5037419fa6fb97c443d4547fc202b6c6d32d265f377bfeee69099a
theirs2 200df8c56f0f54698f7b11cf720e1ffa5515f2f4edb9a8574ac9fb0aa7659fc9";

/// Rows of a sentence and of the calls of a new meter of node 1, each with its answer, worked out by hand:
///
///     open NOW = NUMBER NONCE                      the probe of the next frame
///     says PROOF = ECHO                            what that frame echoes, with this proof
///     probe NUMBER NONCE = nothing, new, old, gap
///     echo NUMBER PROOF NOW = nothing, new NUMBER COST, old, bad
///     close COUNT COST = COUNT                     so many probes are opened, and closed at this cost
///     due MINIMUM HELD NOW INTERVAL = none, WEIGHT
///     published NOW, renew                         no answer
const ROWS: &str = "\
a probe that is answered at once costs nothing|open 0 = 1 d7a52d3a4b54fe35; echo 1 one 0 = new 1 0
each frame beyond the first costs 4|open 20 = 1 d7a52d3a4b54fe35; open 50 = 1 d7a52d3a4b54fe35; open 90 = 1 d7a52d3a4b54fe35; echo 1 one 100 = new 1 88
three probes have one proof|open 0 = 1 d7a52d3a4b54fe35; echo 1 one 3 = new 1 3; open 4 = 2 5ccd4358161c715e; echo 2 two 5 = new 2 1; \
open 6 = 3 f7ae1a0b2259739e; echo 3 three 6 = new 3 0
an echo once more is old, also without its proof|open 0 = 1 d7a52d3a4b54fe35; echo 1 one 5 = new 1 5; echo 1 one 6 = old; echo 1 none 6 = old; \
open 7 = 2 5ccd4358161c715e; echo 1 one 8 = old; echo 1 two 8 = old; echo 2 two 9 = new 2 2
no echo is nothing, with any proof|echo 0 none 0 = nothing; open 3 = 1 d7a52d3a4b54fe35; echo 0 one 3 = nothing; echo 1 one 4 = new 1 1
an echo of a number that was not sent is bad|open 0 = 1 d7a52d3a4b54fe35; echo 2 two 1 = bad; echo 2 one 1 = bad; echo 18446744073709551615 one 1 = bad; \
echo 1 one 2 = new 1 2
an echo of the next number is bad while none is open|echo 1 one 0 = bad; open 0 = 1 d7a52d3a4b54fe35; echo 1 one 1 = new 1 1; echo 2 two 2 = bad; \
echo 18446744073709551615 two 2 = bad; open 3 = 2 5ccd4358161c715e; echo 2 two 3 = new 2 0
an echo is bad by its number alone|open 0 = 1 d7a52d3a4b54fe35; echo 1 none 1 = bad; echo 1 changed 1 = bad; echo 1 one 1 = new 1 1
an echo with the proof of another is bad|open 0 = 1 d7a52d3a4b54fe35; echo 1 two 1 = bad; echo 1 life 1 = bad; echo 1 theirs 1 = bad; echo 1 one 1 = new 1 1
the second is not proved without the first|open 0 = 1 d7a52d3a4b54fe35; echo 1 one 0 = new 1 0; open 1 = 2 5ccd4358161c715e; echo 2 second 2 = bad; \
echo 2 one 2 = bad; echo 2 two 2 = new 2 1
probes that jump leave a gap|says none = 0; probe 2 5ccd4358161c715e = gap; probe 18446744073709551615 90004195a30b736d = gap; says none = 0; \
probe 1 90004195a30b736d = new; says theirs = 1; probe 3 0000000000000000 = gap; probe 2 bc15769f0053974f = new; says theirs2 = 2
probes that fall are old, with any nonce|probe 1 90004195a30b736d = new; probe 1 90004195a30b736d = old; probe 1 0000000000000000 = old; says theirs = 1; \
probe 2 bc15769f0053974f = new; probe 1 90004195a30b736d = old; says theirs2 = 2
no probe is nothing|probe 0 0000000000000000 = nothing; probe 1 90004195a30b736d = new; probe 0 90004195a30b736d = nothing; says theirs = 1
a clock that jumps costs 1000000 at most|open 0 = 1 d7a52d3a4b54fe35; echo 1 one 18446744073709551615 = new 1 1000000
a cost of 999999 is one|open 7 = 1 d7a52d3a4b54fe35; echo 1 one 1000006 = new 1 999999
a cost of 1000000 is the greatest|open 7 = 1 d7a52d3a4b54fe35; echo 1 one 1000008 = new 1 1000000
lost frames count up to the greatest cost|open 0 = 1 d7a52d3a4b54fe35; open 1 = 1 d7a52d3a4b54fe35; echo 1 one 999996 = new 1 1000000
lost frames do not pass the greatest cost|open 0 = 1 d7a52d3a4b54fe35; open 1 = 1 d7a52d3a4b54fe35; echo 1 one 999999 = new 1 1000000
a clock at its end|open 18446744073709551615 = 1 d7a52d3a4b54fe35; echo 1 one 18446744073709551615 = new 1 0
700 in 32 costs are 21|close 31 0 = 31; due 10 10 0 1 = none; close 1 700 = 1; due 10 10 0 1 = 21; due 10 21 0 1 = none; due 22 22 0 1 = none; \
due 22 21 0 1 = 22
319 in 32 costs are the minimum|close 31 0 = 31; close 1 319 = 1; due 10 11 0 1 = 10; due 10 10 0 1 = none
320 in 32 costs are 10|close 31 0 = 31; close 1 320 = 1; due 1 1 0 1 = 10
the first cost leaves with the 33rd|close 1 1000000 = 1; close 31 0 = 31; due 10 10 0 1 = 31250; close 1 0 = 1; due 10 31250 0 1 = 10
the greatest costs make the greatest weight|close 32 1000000 = 32; due 1 1 0 1 = 1000000
an open probe has no cost|close 31 32 = 31; open 9 = 32 2083813bc7036ba8; due 1 1 9 1 = none
a publication rests for its interval|close 32 20 = 32; due 10 10 5 1000 = 20; published 5 = ; due 10 10 5 1000 = none; due 10 10 1004 1000 = none; \
due 10 10 1005 1000 = 20; due 10 10 4 1000 = none; due 10 10 18446744073709551615 1000000000 = 20; published 18446744073709551615 = ; \
due 10 10 18446744073709551615 1 = none; due 10 10 0 1 = none
where probes start anew all is as at first|probe 1 90004195a30b736d = new; close 32 20 = 32; published 5 = ; renew = ; says none = 0; due 10 11 6 1000 = none; \
echo 1 one 6 = bad; open 7 = 1 d7a52d3a4b54fe35; echo 1 one 8 = new 1 1; probe 1 90004195a30b736d = new; says theirs = 1; close 31 20 = 31; \
due 10 10 9 1000 = 19";

/// A meter, and the proof of all probes that it opened, made of what it said of them.
#[derive(Drop)]
struct Row {
    meter: Meter,
    proof: [u8; 32],
}

/// The proof of this name.
fn proof_of(name: &str) -> Result<[u8; 32], Fail> {
    for line in PROOFS.lines() {
        let (word, digits) = line.split_once(' ').ok_or("no digits")?;
        if word == name {
            return Ok(<[u8; 32] as FromHex>::from_hex(digits)?);
        }
    }
    Err("no proof of this name".into())
}

/// Whether one more frame may carry the probe that is open, if one is.
fn has_room(opening: Option<Opening>) -> bool
    ensures { IsTrue result ↔ ForSome opening (λ o. o.frames < MAX_OPENINGS) }
{
    match opening {
        None => true,
        Some(opening) => opening.frames < MAX_OPENINGS,
    }
}

/// Whether the probe that is open, if one is, was opened at this time or before.
fn is_open_by(opening: Option<Opening>, now: u64) -> bool
    ensures { IsTrue result ↔ ForSome opening (λ o. o.since ≤ now) }
{
    match opening {
        None => true,
        Some(opening) => opening.since <= now,
    }
}

/// The probe of the next frame.
fn open(meter: &mut Meter, now: u64) -> Result<Probe, Fail> {
    let opening = meter.opening();
    if meter.number() < MAX_OPENINGS && has_room(opening) {
        Ok(meter.open(now))
    } else {
        Err("no room for a probe".into())
    }
}

/// The answer to an echo of this number with this proof, in a frame without a probe.
fn echo(meter: &mut Meter, number: u64, proof: [u8; 32], now: u64) -> Result<EchoAnswer, Fail> {
    let probe = Probe {
        number: 0,
        nonce: [0; 8],
        echo: number,
        proof,
    };
    if is_open_by(meter.opening(), now) {
        Ok(meter.echo(&probe, now))
    } else {
        Err("the time fell".into())
    }
}

impl Row {
    fn new() -> Result<Row, Fail> {
        let key = <[u8; 32] as FromHex>::from_hex(KEY)?;
        Ok(Row {
            meter: Meter::new(key, NodeId(1), 1),
            proof: [0; 32],
        })
    }

    /// The probe of the next frame. The nonce of a new one is in the proof from now on.
    fn open(&mut self, now: u64) -> Result<Probe, Fail> {
        let before = self.meter.number();
        let probe = open(&mut self.meter, now)?;
        if probe.number != before {
            let mut hasher = Sha256::new();
            hasher.update(self.proof);
            hasher.update(probe.nonce);
            self.proof = hasher.finalize();
        }
        Ok(probe)
    }

    /// So many probes are opened at time 0, and closed at this time.
    fn close(&mut self, count: u64, cost: u64) -> Result<(), Fail> {
        for _ in 0..count {
            let probe = self.open(0)?;
            match echo(&mut self.meter, probe.number, self.proof, cost)? {
                EchoAnswer::New { .. } => {}
                _ => return Err("a probe stays open".into()),
            }
        }
        Ok(())
    }

    fn renew(&mut self) {
        self.meter.renew();
        self.proof = [0; 32];
    }

    fn due(&self, words: &str) -> Result<Option<u32>, Fail> {
        let mut words = words.split_whitespace();
        let minimum: u32 = words.next().ok_or("no minimum")?.parse()?;
        let held = words.next().ok_or("no held weight")?.parse()?;
        let now = words.next().ok_or("no time")?.parse()?;
        let interval = words.next().ok_or("no interval")?.parse()?;
        if minimum >= 1 && minimum <= MAX_WEIGHT {
            Ok(self.meter.due(minimum, held, now, interval))
        } else {
            Err("no minimum of an edge".into())
        }
    }
}

/// What the next frame echoes, where it has this proof.
fn says(row: &Row, alloc: Global, name: &str) -> Result<String, Fail> {
    let probe = open(&mut row.meter.copy(), 0)?;
    if probe.proof != proof_of(name)? {
        return Err("another proof".into());
    }
    Ok(format!(in alloc; "{}", probe.echo)?)
}

/// The answer to a probe of this number and this nonce.
fn probed(row: &mut Row, words: &str) -> Result<&'static str, Fail> {
    let (number, nonce) = words.split_once(' ').ok_or("no nonce")?;
    let probe = Probe {
        number: number.parse()?,
        nonce: <[u8; 8] as FromHex>::from_hex(nonce)?,
        echo: 0,
        proof: [0; 32],
    };
    Ok(match row.meter.probe(&probe) {
        ProbeAnswer::Nothing => "nothing",
        ProbeAnswer::New => "new",
        ProbeAnswer::Old => "old",
        ProbeAnswer::Gap => "gap",
    })
}

/// The answer to an echo of this number, with the proof of this name, at this time.
fn echoed(row: &mut Row, alloc: Global, words: &str) -> Result<String, Fail> {
    let (number, words) = words.split_once(' ').ok_or("no proof")?;
    let (name, now) = words.split_once(' ').ok_or("no time")?;
    Ok(
        match echo(
            &mut row.meter,
            number.parse()?,
            proof_of(name)?,
            now.parse()?,
        )? {
            EchoAnswer::Nothing => "nothing".to_string(alloc)?,
            EchoAnswer::New { number, cost } => format!(in alloc; "new {number} {cost}")?,
            EchoAnswer::Old => "old".to_string(alloc)?,
            EchoAnswer::Bad => "bad".to_string(alloc)?,
        },
    )
}

/// What the meter answers to the call of this name and these words.
fn answer(row: &mut Row, alloc: Global, name: &str, words: &str) -> Result<String, Fail> {
    match name {
        "open" => {
            let probe = row.open(words.parse()?)?;
            let nonce = hex::encode(alloc, probe.nonce)?;
            Ok(format!(in alloc; "{} {nonce}", probe.number)?)
        }
        "says" => says(row, alloc, words),
        "probe" => Ok(probed(row, words)?.to_string(alloc)?),
        "echo" => echoed(row, alloc, words),
        "close" => {
            let (count, cost) = words.split_once(' ').ok_or("no cost")?;
            row.close(count.parse()?, cost.parse()?)?;
            Ok(count.to_string(alloc)?)
        }
        "due" => match row.due(words)? {
            Some(weight) => Ok(format!(in alloc; "{weight}")?),
            None => Ok("none".to_string(alloc)?),
        },
        "published" => {
            row.meter.published(words.parse()?);
            Ok(String::new(alloc))
        }
        "renew" => {
            row.renew();
            Ok(String::new(alloc))
        }
        _ => Err("another call".into()),
    }
}

/// Each call of this row has its answer.
fn runs(rt: &(impl Abort + AllocGlobal), sentence: &str, calls: &str) -> Result<(), Fail> {
    let alloc = rt.alloc();
    let mut row = Row::new()?;
    for call in calls.split("; ") {
        let (call, expected) = call.split_once(" = ").ok_or("no answer")?;
        let (name, words) = call.split_once(' ').unwrap_or((call, ""));
        let found = answer(&mut row, alloc, name, words)?;
        assert_eq!(rt; found.as_str(), expected, "{sentence}: {call}");
    }
    Ok(())
}

#[test]
fn each_probe_and_echo_has_its_answer(rt: HostRuntime) -> Result<(), Fail> {
    for row in ROWS.lines() {
        let (sentence, calls) = row.split_once('|').ok_or("no calls")?;
        runs(&rt, sentence, calls)?;
    }
    Ok(())
}
