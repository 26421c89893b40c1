//! Measures hashes, tags and signatures beside the compressions of SHA-256 that they are made of.
//!
//! Without words each work is done once, and the first bytes of its result are printed. With the words
//! COMPRESSIONS TAGS SIGNATURES each work is done that many times a round, and its speed is printed.
#![tactic(auto)]

mod count;
mod levels;
mod measure;
mod tree;
mod work;

use measure::{Counts, measure};
use sp_ots::LANES;
use std::env::Env;
use std::{env, io};
use work::{WORKS, Work, prepare, row, run};

/// The counts that the words say, or None where there are no words.
fn counts(rt: &(impl Env + Alloc)) -> io::Result<Option<Counts>> {
    let mut numbers = Vec::new(rt.alloc());
    for word in env::args(rt)?.skip(1) {
        let Ok(number) = word.as_str().parse::<u32>() else {
            return Err(io::ErrorKind::InvalidInput.into());
        };
        numbers.push(number)?;
    }
    match numbers.as_slice() {
        [] => Ok(None),
        [compressions, tags, signatures] => Ok(Some(Counts {
            compressions: *compressions,
            tags: *tags,
            signatures: *signatures,
        })),
        _ => Err(io::ErrorKind::InvalidInput.into()),
    }
}

/// Does a work once, and prints its result.
fn show(rt: &(impl Print + AllocGlobal), name: &str, work: Work) -> io::Result<()> {
    let Ok(mut bench) = prepare(rt.alloc(), work) else {
        return Err(io::ErrorKind::OutOfMemory.into());
    };
    let count = if let Work::FourAtOnce = work {
        LANES as u32
    } else {
        1
    };
    let [a, b, c, d, ..] = run(work, count, &mut bench);
    println!(rt; "{name:<20} {a:02x}{b:02x}{c:02x}{d:02x}")
}

/// Does each work once.
fn show_all(rt: &(impl Print + AllocGlobal)) -> io::Result<()> {
    for number in 0..WORKS {
        if let Some((name, work)) = row(number) {
            show(rt, name, work)?;
        }
    }
    Ok(())
}

fn main(rt: HostRuntime) -> io::Result<()> {
    match counts(&rt)? {
        None => show_all(&rt),
        Some(counts) => measure(&rt, counts),
    }
}
