// A verifier that remembers answers as a check that doesn't: good signatures, bad ones before and after good ones, and two sources in turn.
use crate::keys::{MESSAGE, low_signer, next};
use sp_hss::{LmsParam, Verifier, verify};
use sp_lms::LmsKey;
use sp_ots::OtsParam;
use std::alloc::Global;
use std::process::Abort;
use std::test::Fail;

/// A byte of each part of a signature of two levels of height 5, all but the last in its front: the level count, the upper tree's
/// leaf, typecode, randomizer, first element, typecode and path, the lower tree's typecodes, id and root, and its signature.
const PARTS: [usize; 13] = [
    3, 7, 11, 12, 44, 2191, 2192, 2355, 2359, 2360, 2376, 2411, 4755,
];

/// Whether the verifier and the check that remembers nothing give this answer.
fn answers(verifier: &mut Verifier, signature: &[u8], answer: bool) -> bool {
    verify(verifier.public(), &MESSAGE, signature) == answer
        && verifier.verify(&MESSAGE, signature) == answer
}

/// Whether the bad one is refused before and after the good one, which is taken.
fn takes_only(verifier: &mut Verifier, good: &[u8], bad: &[u8]) -> bool {
    for _ in 0..2 {
        if !answers(verifier, bad, false) || !answers(verifier, good, true) {
            return false;
        }
    }
    true
}

/// The key of a seed, and the signatures of so many indexes from one on.
fn source(
    alloc: Global,
    seed: [u8; 32],
    from: u64,
    count: u32,
) -> Result<([u8; 60], Vec<Vec<u8>>), Fail> {
    let mut signer = low_signer(alloc, seed, from, 1024)?;
    let mut signatures = Vec::new(alloc);
    for _ in 0..count {
        signatures.push(next(alloc, &mut signer, &MESSAGE)?)?;
    }
    Ok((signer.public(), signatures))
}

/// Changes the lowest bit of a byte.
fn flip(bytes: &mut [u8], place: usize) {
    if let Some(byte) = bytes.get_mut(place) {
        *byte ^= 1;
    }
}

/// Each change of the good signature is refused beside it.
fn refuses_changes(
    rt: &(impl Abort + AllocGlobal),
    verifier: &mut Verifier,
    good: &[u8],
) -> Result<(), Fail> {
    for part in PARTS {
        let mut changed = good.to_vec(rt.alloc())?;
        flip(&mut changed, part);
        assert!(rt; takes_only(verifier, good, &changed), "byte {part}");
    }
    Ok(())
}

#[test]
fn none_with_a_changed_bit_is_taken(rt: HostRuntime) -> Result<(), Fail> {
    let (key, signatures) = source(rt.alloc(), [0; 32], 31, 1)?;
    let mut verifier = Verifier::make(rt.alloc(), &key)?;
    for good in &signatures {
        refuses_changes(&rt, &mut verifier, good)?;
        assert!(rt; takes_only(&mut verifier, good, b""));
    }
    Ok(())
}

/// A verifier takes each of its own signatures, and none of the other's beside it.
fn takes_its_own(
    rt: &(impl Abort + AllocGlobal),
    key: &[u8; 60],
    own: &[Vec<u8>],
    other: &[Vec<u8>],
) -> Result<(), Fail> {
    let mut verifier = Verifier::make(rt.alloc(), key)?;
    for (good, bad) in own.iter().zip(other) {
        assert!(rt; takes_only(&mut verifier, good, bad));
    }
    Ok(())
}

#[test]
fn two_sources_and_two_lower_trees_are_checked_in_turn(rt: HostRuntime) -> Result<(), Fail> {
    let (key, own) = source(rt.alloc(), [0; 32], 30, 3)?;
    let (other_key, other) = source(rt.alloc(), [1; 32], 31, 3)?;
    takes_its_own(&rt, &key, &own, &other)?;
    takes_its_own(&rt, &other_key, &other, &own)
}

/// A key of one level, and its first signature: those of a tree, each after a number.
fn one_level(alloc: Global) -> Result<([u8; 60], [u8; 2352]), Fail> {
    let mut key = LmsKey::make(alloc, LmsParam::H5, OtsParam::W4, [7; 16], [9; 32])?;
    let mut public = [0u8; 60];
    public[3] = 1;
    public[4..].copy_from_slice(&key.public());
    let mut signature = [0u8; 2352];
    key.sign(&MESSAGE, &mut signature[4..])?;
    Ok((public, signature))
}

#[test]
fn a_signature_of_one_level_is_not_one_of_two(rt: HostRuntime) -> Result<(), Fail> {
    let (_, single) = one_level(rt.alloc())?;
    let (key, signatures) = source(rt.alloc(), [0; 32], 0, 1)?;
    let mut verifier = Verifier::make(rt.alloc(), &key)?;
    for good in &signatures {
        assert!(rt; takes_only(&mut verifier, good, &single));
    }
    Ok(())
}

#[test]
fn a_key_of_one_level_remembers_nothing(rt: HostRuntime) -> Result<(), Fail> {
    let (public, single) = one_level(rt.alloc())?;
    let mut verifier = Verifier::make(rt.alloc(), &public)?;
    assert!(rt; takes_only(&mut verifier, &single, &[1; 4756]));
    Ok(())
}

#[test]
fn a_key_of_three_bytes_has_no_signature(rt: HostRuntime) -> Result<(), Fail> {
    let mut verifier = Verifier::make(rt.alloc(), &[0, 0, 2])?;
    assert!(rt; answers(&mut verifier, b"", false));
    assert!(rt; answers(&mut verifier, &[0; 4756], false));
    Ok(())
}
