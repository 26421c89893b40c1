// The times of all works, each beside the compressions that it is made of, in one run.
use crate::count::{compressions, signed_last};
use crate::levels::Levels;
use crate::tree::message;
use crate::work::{Bench, WORKS, Work, prepare, row, run};
use sp_hss::LmsParam;
use std::alloc::Global;
use std::io;
use std::num::nearest_u64_to_f64;
use std::rt::Clock;
use std::time::Instant;

/// How often each work is done in a round.
#[derive(Clone, Copy)]
pub struct Counts {
    pub compressions: u32,
    pub tags: u32,
    pub signatures: u32,
}

/// Each work is timed so often, and its least time counts: the machine may have other work.
const ROUNDS: u32 = 5;

/// The calls of a signer that are measured one by one: a name, the height, how many are signed before, and the count.
type Life = (&'static str, LmsParam, u32, u32);

/// A whole key of height 5, and the calls round a border at height 10.
fn life_of(number: u32) -> Option<Life> {
    match number {
        0 => Some(("HSS sign, h = 5", LmsParam::H5, 0, 1024)),
        1 => Some(("HSS sign, h = 10", LmsParam::H10, 1004, 40)),
        _ => None,
    }
}

/// What the rounds of a work gave: the seconds of one bare compression and of the whole work, the least of
/// all rounds, and the first byte of the result, so that no work can be left out.
struct Timing {
    bare: f64,
    whole: f64,
    result: u8,
}

/// Prints how often a second each work is done, its compressions, how much longer it takes than these
/// alone, and the first byte of its result; and then the calls of a signer one by one.
pub fn measure(rt: &(impl Print + Clock + AllocGlobal), counts: Counts) -> io::Result<()> {
    println!(rt;
        "{:<20} {:>9} {:>10} {:>12} {:>7} {:>6}",
        "work", "count", "a second", "compressions", "ratio", "result"
    )?;
    for number in 0..WORKS {
        if let Some((name, work)) = row(number) {
            measure_work(rt, name, work, counts)?;
        }
    }
    println!(rt;
        "{:<20} {:>9} {:>10} {:>12} {:>7} {:>7}",
        "calls one by one", "count", "a second", "compressions", "most", "longest"
    )?;
    for number in 0..2 {
        if let Some(life) = life_of(number) {
            measure_calls(rt, life)?;
        }
    }
    Ok(())
}

/// One row of the works.
fn measure_work(
    rt: &(impl Print + Clock + AllocGlobal),
    name: &str,
    work: Work,
    counts: Counts,
) -> io::Result<()> {
    let count = counts.of(work);
    let blocks = blocks_of(rt.alloc(), work, count)?;
    let Timing {
        bare,
        whole,
        result,
    } = time(rt, work, counts.compressions, count)?;
    let all = nearest_u64_to_f64(count as u64);
    println!(rt;
        "{name:<20} {count:>9} {:>10.1} {:>12.1} {:>7.3} {result:>6x}",
        all / whole,
        blocks / all,
        whole / (blocks * bare)
    )
}

/// The compressions of a work.
fn blocks_of(alloc: Global, work: Work, count: u32) -> io::Result<f64> {
    let mut bench = prepared(alloc, work)?;
    Ok(nearest_u64_to_f64(compressions(work, count, &mut bench)))
}

impl Counts {
    /// How often a work is done. A lower tree of height 5 makes 32 signatures, and one of height 10 1,024.
    fn of(self, work: Work) -> u32 {
        match work {
            Work::Compression | Work::FourAtOnce => self.compressions,
            Work::ShortTag | Work::LongTag => self.tags,
            Work::Key(_) => 1,
            Work::SignBelow(LmsParam::H5) => self.signatures.min(32),
            Work::SignBelow(_) => self.signatures.min(1024),
            _ => self.signatures,
        }
    }
}

fn prepared(alloc: Global, work: Work) -> io::Result<Bench> {
    prepare(alloc, work).map_err(|_| io::ErrorKind::OutOfMemory.into())
}

/// What the calls of a signer one by one took: the seconds of all and of the longest, and their compressions, all and the most of a call.
#[derive(Clone, Copy)]
struct Calls {
    all: f64,
    longest: f64,
    compressions: u64,
    most: u64,
}

/// Signs so many times after others, each call timed by itself: of each call the least of all rounds.
fn time_calls(
    rt: &(impl Clock + AllocGlobal),
    height: LmsParam,
    before: u32,
    count: u32,
) -> io::Result<Calls> {
    let mut least = vec![in rt.alloc(); f64::INFINITY; count as usize]?;
    let mut calls = Calls {
        all: 0.0,
        longest: 0.0,
        compressions: 0,
        most: 0,
    };
    for _ in 0..ROUNDS {
        calls = round_of_calls(rt, height, before, &mut least)?;
    }
    for seconds in least.iter() {
        calls.all += *seconds;
        calls.longest = calls.longest.max(*seconds);
    }
    Ok(calls)
}

/// Signs once for each of the times, and lowers each to that of its call where this is less. Gives the compressions.
fn round_of_calls(
    rt: &(impl Clock + AllocGlobal),
    height: LmsParam,
    before: u32,
    least: &mut [f64],
) -> io::Result<Calls> {
    let Ok(mut levels) = Levels::make(rt.alloc(), height) else {
        return Err(io::ErrorKind::OutOfMemory.into());
    };
    for i in 0..before {
        levels.sign(&message(i));
    }
    let mut calls = Calls {
        all: 0.0,
        longest: 0.0,
        compressions: 0,
        most: 0,
    };
    for seconds in least.iter_mut() {
        let index = levels.index();
        let message = message((index % 0x1_0000_0000) as u32);
        let start = Instant::now(rt)?;
        levels.sign(&message);
        *seconds = seconds.min(start.elapsed(rt)?.as_secs_f64());
        let compressions = signed_last(&levels, index, &message);
        calls.compressions = calls.compressions.saturating_add(compressions);
        calls.most = calls.most.max(compressions);
    }
    Ok(calls)
}

/// Prints the longest of the calls of a signer beside their mean, in time and in compressions.
fn measure_calls(rt: &(impl Print + Clock + AllocGlobal), life: Life) -> io::Result<()> {
    let (name, height, before, count) = life;
    let calls = time_calls(rt, height, before, count)?;
    let number = nearest_u64_to_f64(count as u64);
    println!(rt;
        "{name:<20} {count:>9} {:>10.1} {:>12.1} {:>7} {:>7.3}",
        number / calls.all,
        nearest_u64_to_f64(calls.compressions) / number,
        calls.most,
        calls.longest * number / calls.all
    )
}

/// Times the bare compressions and the work by turns.
fn time(
    rt: &(impl Clock + AllocGlobal),
    work: Work,
    bare_count: u32,
    count: u32,
) -> io::Result<Timing> {
    let mut bare = f64::INFINITY;
    let mut whole = f64::INFINITY;
    let mut result = 0;
    for _ in 0..ROUNDS {
        let mut bench = prepared(rt.alloc(), work)?;
        let (compressions, [first, ..]) = seconds(rt, Work::Compression, bare_count, &mut bench)?;
        let (once, [last, ..]) = seconds(rt, work, count, &mut bench)?;
        bare = bare.min(compressions);
        whole = whole.min(once);
        result = first ^ last;
    }
    Ok(Timing {
        bare: bare / nearest_u64_to_f64(bare_count as u64),
        whole,
        result,
    })
}

/// The seconds that a work takes, and its result.
fn seconds(
    rt: &impl Clock,
    work: Work,
    count: u32,
    bench: &mut Bench,
) -> io::Result<(f64, [u8; 32])> {
    let start = Instant::now(rt)?;
    let result = run(work, count, bench);
    Ok((start.elapsed(rt)?.as_secs_f64(), result))
}
