// The works that are measured, each over messages that are told apart by a number.
ghost use Rattle.std.specs.Prelude.{◌≡◌, ◌≤◌, length};
ghost use Rattle.sp_ots.specs.Parameters.{signature_len};

use crate::levels::{Levels, piece};
use crate::tree::{ID, LEAF, SEED, message};
use sha2::{Digest, Sha256};
use sp_hmac::Keyed;
use sp_hss::{HssRefused, LmsParam};
use sp_ots::{
    LANES, OtsParam, candidate, digests, run_chains, run_chains_one_by_one, sig_len, sign,
};
use std::alloc::Global;

/// A work that is done again and again.
#[derive(Clone, Copy)]
pub enum Work {
    /// The digest of 55 bytes, which is one compression.
    Compression,
    /// The same, four at a time.
    FourAtOnce,
    /// The tag of 64 bytes under a key that is hashed once.
    ShortTag,
    /// The tag of 5,120 bytes under the same key.
    LongTag,
    /// The chains of a key with w = 4: 67 of 15 steps.
    Chains,
    /// The same chains one after another.
    ChainsOneByOne,
    Sign(OtsParam),
    Verify(OtsParam),
    /// A signer of two levels of this height is made.
    Key(LmsParam),
    /// It signs with its first lower tree.
    SignBelow(LmsParam),
    /// Its signature is checked.
    VerifyBelow(LmsParam),
    /// The same where the front of the signature is remembered.
    VerifyKnown(LmsParam),
}

/// How many works there are.
pub const WORKS: u32 = 21;

/// The work of this number, counted from 0, and its name. The compression is the first.
pub fn row(number: u32) -> Option<(&'static str, Work)> {
    match number {
        0 => Some(("compression", Work::Compression)),
        1 => Some(("the same in lanes", Work::FourAtOnce)),
        2 => Some(("tag of 64 bytes", Work::ShortTag)),
        3 => Some(("tag of 5,120 bytes", Work::LongTag)),
        4 => Some(("67 chains of 15", Work::Chains)),
        5 => Some(("the same one by one", Work::ChainsOneByOne)),
        6 => Some(("sign, w = 1", Work::Sign(OtsParam::W1))),
        7 => Some(("verify, w = 1", Work::Verify(OtsParam::W1))),
        8 => Some(("sign, w = 2", Work::Sign(OtsParam::W2))),
        9 => Some(("verify, w = 2", Work::Verify(OtsParam::W2))),
        10 => Some(("sign, w = 4", Work::Sign(OtsParam::W4))),
        11 => Some(("verify, w = 4", Work::Verify(OtsParam::W4))),
        12 => Some(("sign, w = 8", Work::Sign(OtsParam::W8))),
        13 => Some(("verify, w = 8", Work::Verify(OtsParam::W8))),
        14 => Some(("HSS key, h = 10", Work::Key(LmsParam::H10))),
        15 => Some(("HSS sign, h = 5", Work::SignBelow(LmsParam::H5))),
        16 => Some(("HSS verify, h = 5", Work::VerifyBelow(LmsParam::H5))),
        17 => Some(("HSS known, h = 5", Work::VerifyKnown(LmsParam::H5))),
        18 => Some(("HSS sign, h = 10", Work::SignBelow(LmsParam::H10))),
        19 => Some(("HSS verify, h = 10", Work::VerifyBelow(LmsParam::H10))),
        20 => Some(("HSS known, h = 10", Work::VerifyKnown(LmsParam::H10))),
        _ => None,
    }
}

/// The bytes of the longest one-time signature.
const ROOM: usize = 8516;

/// What the works read and write: a one-time signature of message 0, and a signer of two levels where a work has one.
#[derive(Drop)]
pub struct Bench {
    alloc: Global,
    room: [u8; ROOM],
    pub levels: Option<Levels>,
}

impl Bench {
    /// The randomizer of the one-time signature.
    pub fn randomizer(&self) -> [u8; 32] {
        piece(&self.room, 4)
    }
}

/// Makes what a work reads.
pub fn prepare(alloc: Global, work: Work) -> Result<Bench, HssRefused> {
    let mut room = [0u8; ROOM];
    if let Work::Sign(param) | Work::Verify(param) = work {
        let signature = &mut room[..sig_len(param)];
        sign(param, &ID, LEAF, &SEED, &message(0), signature);
    }
    let levels = match work {
        Work::SignBelow(height) => Some(Levels::make(alloc, height)?),
        Work::VerifyBelow(height) => {
            let mut levels = Levels::make(alloc, height)?;
            levels.sign(&message(0));
            Some(levels)
        }
        Work::VerifyKnown(height) => {
            let mut levels = Levels::make(alloc, height)?;
            levels.sign(&message(0));
            levels.verify_known(&message(0));
            Some(levels)
        }
        _ => None,
    };
    Ok(Bench {
        alloc,
        room,
        levels,
    })
}

/// Does the work `count` times. The bytes depend on every result: a bare compression goes on from the
/// one before, and of the others each is of its own message, and all are added by exclusive or.
pub fn run(work: Work, count: u32, bench: &mut Bench) -> [u8; 32] {
    match work {
        Work::Compression => compressions(count),
        Work::FourAtOnce => four_at_once(count),
        Work::ShortTag => tags(&mut [0; 64], count),
        Work::LongTag => tags(&mut [0; 5120], count),
        Work::Chains => chains(count),
        Work::ChainsOneByOne => chains_one_by_one(count),
        Work::Sign(param) => signatures(param, count, &mut bench.room[..sig_len(param)]),
        Work::Verify(param) => checks(param, count, &bench.room[..sig_len(param)]),
        Work::Key(height) => keys(bench.alloc, height, count),
        Work::SignBelow(_) => signatures_below(&mut bench.levels, count),
        Work::VerifyBelow(_) => checks_below(&bench.levels, count),
        Work::VerifyKnown(_) => checks_known(&mut bench.levels, count),
    }
}

fn compressions(count: u32) -> [u8; 32] {
    let mut block = [0u8; 55];
    let mut digest = [0u8; 32];
    for _ in 0..count {
        block[0] ^= digest[0];
        digest = Sha256::digest(&block);
    }
    digest
}

/// Each lane goes on from its own digest.
fn four_at_once(count: u32) -> [u8; 32] {
    let mut blocks = [[0u8; 55]; LANES];
    let mut four = [[0u8; 32]; LANES];
    for _ in 0..count / LANES as u32 {
        for (block, digest) in blocks.iter_mut().zip(four) {
            block[0] ^= digest[0];
        }
        four = digests(&blocks);
    }
    four[0]
}

fn tags(bytes: &mut [u8], count: u32) -> [u8; 32]
    requires { 4 ≤ length bytes.old }
{
    let keyed = Keyed::new(&SEED);
    let mut sum = [0u8; 32];
    for i in 0..count {
        bytes[..4].copy_from_slice(&i.to_be_bytes());
        add(&mut sum, &keyed.tag(bytes, b""));
    }
    sum
}

/// Each turn goes on from the elements of the one before.
fn chains(count: u32) -> [u8; 32] {
    let mut elements = [[0u8; 32]; 67];
    for q in 0..count {
        run_chains(&ID, q, &[0; 67], &[15; 67], &mut elements);
    }
    elements[66]
}

fn chains_one_by_one(count: u32) -> [u8; 32] {
    let mut elements = [[0u8; 32]; 67];
    for q in 0..count {
        run_chains_one_by_one(&ID, q, &[0; 67], &[15; 67], &mut elements);
    }
    elements[66]
}

fn signatures(param: OtsParam, count: u32, signature: &mut [u8]) -> [u8; 32]
    requires { length signature.old ≡ signature_len param }
{
    let mut sum = [0u8; 32];
    for i in 0..count {
        sign(param, &ID, LEAF, &SEED, &message(i), signature);
        add(&mut sum, signature);
    }
    sum
}

fn checks(param: OtsParam, count: u32, signature: &[u8]) -> [u8; 32] {
    let mut sum = [0u8; 32];
    for i in 0..count {
        if let Ok(key) = candidate(param, &ID, LEAF, &message(i), signature) {
            add(&mut sum, &key);
        }
    }
    sum
}

fn keys(alloc: Global, height: LmsParam, count: u32) -> [u8; 32] {
    let mut sum = [0u8; 32];
    for _ in 0..count {
        if let Ok(levels) = Levels::make(alloc, height) {
            add(&mut sum, levels.public());
        }
    }
    sum
}

fn signatures_below(levels: &mut Option<Levels>, count: u32) -> [u8; 32] {
    let mut sum = [0u8; 32];
    if let Some(levels) = levels {
        for i in 0..count {
            levels.sign(&message(i));
            add(&mut sum, levels.signature());
        }
    }
    sum
}

/// All but the first message are of another signature, and are refused at the end.
fn checks_below(levels: &Option<Levels>, count: u32) -> [u8; 32] {
    let mut sum = [0u8; 32];
    if let Some(levels) = levels {
        for i in 0..count {
            sum[0] ^= levels.verify(&message(i)) as u8;
        }
    }
    sum
}

/// The same where the front is remembered.
fn checks_known(levels: &mut Option<Levels>, count: u32) -> [u8; 32] {
    let mut sum = [0u8; 32];
    if let Some(levels) = levels {
        for i in 0..count {
            sum[0] ^= levels.verify_known(&message(i)) as u8;
        }
    }
    sum
}

/// Adds the last bytes by exclusive or.
fn add(sum: &mut [u8; 32], bytes: &[u8]) {
    for (place, byte) in sum.iter_mut().rev().zip(bytes.iter().rev()) {
        *place ^= *byte;
    }
}
