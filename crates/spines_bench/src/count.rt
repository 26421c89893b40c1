// How many compressions of SHA-256 a work takes, counted from the hashes that it makes.
ghost use Rattle.std.specs.Prelude.{◌<◌};

use crate::levels::Levels;
use crate::tree::{ID, LEAF, message};
use crate::work::{Bench, Work};
use sha2::{Digest, Sha256};
use sp_hss::LmsParam;
use sp_ots::{LANES, OtsParam};

/// The compressions that the work takes for the messages below `count`, with what was prepared for it.
pub fn compressions(work: Work, count: u32, bench: &mut Bench) -> u64 {
    let all = count as u64;
    match work {
        Work::Compression => all,
        Work::FourAtOnce => all / LANES as u64 * LANES as u64,
        // The key's blocks are hashed once for all, and the outer hash is of one digest.
        Work::ShortTag => blocks(64).saturating_add(1).saturating_mul(all),
        Work::LongTag => blocks(5120).saturating_add(1).saturating_mul(all),
        Work::Chains | Work::ChainsOneByOne => 67u64.saturating_mul(15).saturating_mul(all),
        Work::Sign(param) => sum(count, |i| {
            signing(
                param,
                left(param, &ID, LEAF, &bench.randomizer(), &message(i)),
            )
        }),
        Work::Verify(param) => sum(count, |i| {
            checking(
                param,
                32,
                left(param, &ID, LEAF, &bench.randomizer(), &message(i)),
            )
        }),
        Work::Key(height) => key(height).saturating_mul(all),
        Work::SignBelow(_) => signing_below(&mut bench.levels, count),
        Work::VerifyBelow(height) => checking_below(&bench.levels, height, count, false),
        Work::VerifyKnown(height) => checking_below(&bench.levels, height, count, true),
    }
}

/// The compressions of a message of so many bytes, with its padding of 9 bytes or more.
fn blocks(len: u64) -> u64 {
    len.saturating_add(9).div_ceil(64)
}

/// Those of a signature whose chains stop so many steps before their ends.
fn signing(param: OtsParam, left: u64) -> u64 {
    let all_steps = chains(param).saturating_mul(base(param) - 1);
    // A private start for each chain, the randomizer, and the message's hash.
    let starts = chains(param).saturating_add(1);
    starts
        .saturating_add(blocks(22 + 32 + 32))
        .saturating_add(all_steps.saturating_sub(left))
}

/// Those of a check: the hash of a message of so many bytes, the steps that are left, and the key.
fn checking(param: OtsParam, len: u64, left: u64) -> u64 {
    let ends = chains(param).saturating_mul(32);
    blocks(len.saturating_add(22 + 32))
        .saturating_add(left)
        .saturating_add(blocks(ends.saturating_add(22)))
}

/// The chains of a parameter set (RFC 8554, section 4.1).
fn chains(param: OtsParam) -> u64 {
    match param {
        OtsParam::W1 => 265,
        OtsParam::W2 => 133,
        OtsParam::W4 => 67,
        OtsParam::W8 => 34,
    }
}

/// The values of a digit, 2^w.
fn base(param: OtsParam) -> u64
    ensures { 0 < result }
{
    match param {
        OtsParam::W1 => 2,
        OtsParam::W2 => 4,
        OtsParam::W4 => 16,
        OtsParam::W8 => 256,
    }
}

/// Those of a leaf of a tree: the chains with their private starts, the key of their ends, and the leaf's hash.
fn leaf() -> u64 {
    blocks(22 + 67 * 32).saturating_add(67 * 16 + 1)
}

/// Those of a node above the leaves.
fn inner_node() -> u64 {
    blocks(22 + 64)
}

/// Those of both trees of a key of two levels. Its few tags and its one signature are left out: one in 3,000.
fn key(height: LmsParam) -> u64 {
    let leaves = u64::from(height.leaf_count());
    leaves
        .saturating_mul(leaf())
        .saturating_add(inner_node().saturating_mul(leaves.saturating_sub(1)))
        .saturating_mul(2)
}

/// Those of signatures by the first lower tree, beside which the second one grows.
fn signing_below(levels: &mut Option<Levels>, count: u32) -> u64 {
    let Some(levels) = levels else {
        return 0;
    };
    let mut all = 0u64;
    for i in 0..count {
        let index = levels.index();
        let message = message(i);
        levels.sign(&message);
        all = all.saturating_add(signed_last(levels, index, &message));
    }
    all
}

/// Those of the last signature, which has this index: of its leaf, of the leaf that grew beside it with the nodes that became whole, and of the
/// upper tree's leaf where the lower tree is new. The few tags of a new tree are left out.
pub fn signed_last(levels: &Levels, index: u64, message: &[u8]) -> u64 {
    let leaves = u64::from(levels.height().leaf_count()).max(1);
    let tree = index / leaves % leaves;
    let q = index % leaves;
    let lower = left(
        OtsParam::W4,
        &levels.lower_id(),
        q as u32,
        &levels.lower_randomizer(),
        message,
    );
    let mut all = signing(OtsParam::W4, lower);
    if tree.saturating_add(1) < leaves {
        let whole = u64::from(q.trailing_ones());
        all = all
            .saturating_add(leaf())
            .saturating_add(inner_node().saturating_mul(whole));
    }
    if q == 0 && index > 0 {
        let upper = left(
            OtsParam::W4,
            &levels.upper_id(),
            tree as u32,
            &levels.upper_randomizer(),
            &levels.lower_key(),
        );
        all = all.saturating_add(signing(OtsParam::W4, upper));
    }
    all
}

/// Those of checks of the first signature for each message: both levels, each with its path, or the lower one alone where the front is known.
fn checking_below(levels: &Option<Levels>, height: LmsParam, count: u32, is_known: bool) -> u64 {
    let Some(levels) = levels else {
        return 0;
    };
    let path = inner_node()
        .saturating_mul(height.height() as u64)
        .saturating_add(1);
    let upper = left(
        OtsParam::W4,
        &levels.upper_id(),
        0,
        &levels.upper_randomizer(),
        &levels.lower_key(),
    );
    let above = if is_known {
        0
    } else {
        checking(OtsParam::W4, 56, upper).saturating_add(path)
    };
    sum(count, |i| {
        let lower = left(
            OtsParam::W4,
            &levels.lower_id(),
            0,
            &levels.lower_randomizer(),
            &message(i),
        );
        checking(OtsParam::W4, 32, lower)
            .saturating_add(path)
            .saturating_add(above)
    })
}

/// The sum over the numbers below `count`.
fn sum<F: Fn(u32) -> u64 + Drop>(count: u32, f: F) -> u64
    requires { F.IsAlwaysCallable f }
{
    let mut all = 0u64;
    for i in 0..count {
        all = all.saturating_add(f(i));
    }
    all
}

/// How many steps the chains of a signature are from their ends: those of the message's hash behind its randomizer.
fn left(param: OtsParam, id: &[u8; 16], leaf: u32, randomizer: &[u8; 32], message: &[u8]) -> u64 {
    let hash = Sha256::new_with_prefix(id)
        .chain_update(leaf.to_be_bytes())
        .chain_update([0x81, 0x81])
        .chain_update(randomizer)
        .chain_update(message)
        .finalize();
    steps_left(param, &hash)
}

/// How far the digits of a hash and of its checksum are from the greatest, all together.
fn steps_left(param: OtsParam, hash: &[u8; 32]) -> u64 {
    let (digits_of_a_byte, digits_of_the_checksum) = match param {
        OtsParam::W1 => (8, 9),
        OtsParam::W2 => (4, 5),
        OtsParam::W4 => (2, 3),
        OtsParam::W8 => (1, 2),
    };
    let of_the_hash = hash.iter().fold(0u64, |sum, byte| {
        sum.saturating_add(distance(*byte as u64, digits_of_a_byte, base(param)))
    });
    of_the_hash.saturating_add(distance(of_the_hash, digits_of_the_checksum, base(param)))
}

/// How far the lowest digits of a number are from the greatest, all together.
fn distance(number: u64, digits: u32, base: u64) -> u64
    requires { 0 < base }
{
    let mut rest = number;
    let mut distance = 0u64;
    for _ in 0..digits {
        distance = distance.saturating_add(base - 1 - rest % base);
        rest /= base;
    }
    distance
}
