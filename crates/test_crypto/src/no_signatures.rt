// What is not a signature, of one tree and of two levels: good signatures and keys with a number changed.
use crate::trees::{ID, MESSAGE, SEED, next};
use sp_hss::{LmsParam, Signer};
use sp_lms::LmsKey;
use sp_ots::OtsParam;
use std::alloc::Global;
use std::test::Fail;

/// Where the one-time signature of w = 4 ends in the signature of a tree.
const PATH: usize = 4 + 2180;

/// Where the lower tree's key stands in a signature of two levels of height 5.
const LOWER_KEY: usize = 4 + 2348;

/// Whose good signature it is: of a tree, of two levels, or of a tree as one level.
const TREE: u8 = 0;

const TWO_LEVELS: u8 = 1;

const ONE_LEVEL: u8 = 2;

/// Whose signature, whether its key is changed in place of it, and a number of four bytes with the place where it is put. Of a tree's signature: leaf
/// 2^h, another leaf, two other one-time typecodes, two other typecodes of trees, the first bytes of another path. Of its key: two other heights, two
/// other w, the last bytes of another root. Of a signature of two levels: one level and three, leaf 2^h of the upper tree, a lower key of another
/// height and of another w, leaf 2^h of the lower tree. Of a key of two levels: no level, one and three, another height. Of one level: other numbers
/// of levels, and leaf 2^h.
const NUMBERS: [(u8, bool, usize, u32); 28] = [
    (TREE, false, 0, 32),
    (TREE, false, 0, 1),
    (TREE, false, 4, 4),
    (TREE, false, 4, 5),
    (TREE, false, PATH, 6),
    (TREE, false, PATH, 8),
    (TREE, false, PATH + 4, 0),
    (TREE, true, 0, 6),
    (TREE, true, 0, 4),
    (TREE, true, 4, 4),
    (TREE, true, 4, 0),
    (TREE, true, 52, 0),
    (TWO_LEVELS, false, 0, 0),
    (TWO_LEVELS, false, 0, 2),
    (TWO_LEVELS, false, 4, 32),
    (TWO_LEVELS, false, LOWER_KEY, 6),
    (TWO_LEVELS, false, LOWER_KEY + 4, 4),
    (TWO_LEVELS, false, LOWER_KEY + 56, 32),
    (TWO_LEVELS, true, 0, 0),
    (TWO_LEVELS, true, 0, 1),
    (TWO_LEVELS, true, 0, 3),
    (TWO_LEVELS, true, 4, 6),
    (ONE_LEVEL, true, 0, 0),
    (ONE_LEVEL, true, 0, 2),
    (ONE_LEVEL, true, 0, 3),
    (ONE_LEVEL, false, 0, 1),
    (ONE_LEVEL, false, 0, 2),
    (ONE_LEVEL, false, 4, 32),
];

/// A key and its first signature.
#[derive(Drop)]
struct Good {
    key: Vec<u8>,
    signature: Vec<u8>,
}

/// The key of a tree and its first signature.
fn signed_by_tree(alloc: Global) -> Result<([u8; 56], Vec<u8>), Fail> {
    let mut tree = LmsKey::make(alloc, LmsParam::H5, OtsParam::W4, ID, SEED)?;
    let signature = next(alloc, &mut tree)??;
    Ok((tree.public(), signature))
}

/// Those of a tree, each with these bytes before it.
fn good_tree(alloc: Global, before_key: &[u8], before: &[u8]) -> Result<Good, Fail> {
    let (public, signed) = signed_by_tree(alloc)?;
    let mut key = before_key.to_vec(alloc)?;
    key.extend_from_slice(&public)?;
    let mut signature = before.to_vec(alloc)?;
    signature.extend_from_slice(&signed)?;
    Ok(Good { key, signature })
}

/// The first signature of a key of two levels.
fn first_of(alloc: Global, signer: &mut Signer) -> Result<Good, Fail> {
    let mut signature = vec![in alloc; 0; signer.signature_len()]?;
    signer.sign(&MESSAGE, &mut signature)?;
    let key = signer.public().to_vec(alloc)?;
    Ok(Good { key, signature })
}

/// Those of two levels.
fn good_levels(alloc: Global) -> Result<Good, Fail> {
    let mut signer = Signer::make(alloc, LmsParam::H5, [0; 32], 0, 1024)?;
    first_of(alloc, &mut signer)
}

fn make_good(alloc: Global, whose: u8) -> Result<Good, Fail> {
    match whose {
        TREE => good_tree(alloc, b"", b""),
        TWO_LEVELS => good_levels(alloc),
        _ => good_tree(alloc, b"\x00\x00\x00\x01", b"\x00\x00\x00\x00"),
    }
}

impl Good {
    /// Whether it is a signature of a message.
    fn signs(&self, whose: u8, message: &[u8]) -> bool {
        match whose {
            TREE => sp_lms::verify(&self.key, message, &self.signature),
            _ => sp_hss::verify(&self.key, message, &self.signature),
        }
    }

    /// The key or the signature has a number in the place of four bytes.
    fn put(&mut self, is_key: bool, place: usize, number: u32) {
        if is_key {
            put(&mut self.key, place, number);
        } else {
            put(&mut self.signature, place, number);
        }
    }

    /// The key or the signature has other bytes: one more (0), one less (1), none (2).
    fn resize(&mut self, is_key: bool, how: u8) -> Result<(), Fail> {
        if is_key {
            resize(&mut self.key, how)
        } else {
            resize(&mut self.signature, how)
        }
    }
}

fn put(bytes: &mut [u8], place: usize, number: u32) {
    for (byte, digit) in bytes.iter_mut().skip(place).zip(number.to_be_bytes()) {
        *byte = digit;
    }
}

fn resize(bytes: &mut Vec<u8>, how: u8) -> Result<(), Fail> {
    match how {
        0 => bytes.push(0)?,
        1 => {
            bytes.pop();
        }
        _ => bytes.clear(),
    }
    Ok(())
}

#[test]
fn with_another_number_it_is_no_signature(rt: HostRuntime) -> Result<(), Fail> {
    for (whose, is_key, place, number) in NUMBERS {
        let mut changed = make_good(rt.alloc(), whose)?;
        changed.put(is_key, place, number);
        assert!(rt;
            !changed.signs(whose, &MESSAGE),
            "{whose}: {number} at {place}"
        );
    }
    Ok(())
}

/// Whether it is none where the key or the signature has a byte more, a byte less, or none.
fn none_resized(alloc: Global, whose: u8, is_key: bool) -> Result<bool, Fail> {
    for how in 0..3u8 {
        let mut changed = make_good(alloc, whose)?;
        changed.resize(is_key, how)?;
        if changed.signs(whose, &MESSAGE) {
            return Ok(false);
        }
    }
    Ok(true)
}

#[test]
fn with_other_bytes_or_of_another_message_it_is_no_signature(rt: HostRuntime) -> Result<(), Fail> {
    for whose in 0..3u8 {
        let good = make_good(rt.alloc(), whose)?;
        assert!(rt; good.signs(whose, &MESSAGE) && !good.signs(whose, &MESSAGE[..14]));
        assert!(rt;
            none_resized(rt.alloc(), whose, false)? && none_resized(rt.alloc(), whose, true)?
        );
    }
    Ok(())
}
