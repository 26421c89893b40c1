// One-time signatures against RFC 8554 and Bouncy Castle 1.72, and what becomes of a signature that is changed.
use crate::rfc_8554;
use hex::{FromHex, decode};
use sha2::{Digest, Sha256};
use sp_ots::{Claim, OtsParam, OtsRefused, candidate, candidates, public, sig_len, sign};
use std::alloc::Global;
use std::test::Fail;

/// The tree, the seed, the leaf and the message of the values that Bouncy Castle 1.72 made, and another tree.
const ID: [u8; 16] = [0, 1, 2, 3, 4, 5, 6, 7, 8, 9, 10, 11, 12, 13, 14, 15];

const OTHER_ID: [u8; 16] = [0, 1, 2, 3, 4, 5, 6, 7, 8, 9, 10, 11, 12, 13, 14, 14];

const SEED: [u8; 32] = [
    0, 1, 2, 3, 4, 5, 6, 7, 8, 9, 10, 11, 12, 13, 14, 15, 16, 17, 18, 19, 20, 21, 22, 23, 24, 25,
    26, 27, 28, 29, 30, 31,
];

const LEAF: u32 = 3;

const MESSAGE: [u8; 15] = [2, 1, 3, 0, 0, 0, 0, 0, 0, 0, 1, 0, 2, b'h', b'i'];

const OTHER_MESSAGE: [u8; 14] = [2, 1, 3, 0, 0, 0, 0, 0, 0, 0, 1, 0, 2, b'h'];

const PARAMS: [OtsParam; 4] = [OtsParam::W1, OtsParam::W2, OtsParam::W4, OtsParam::W8];

/// The bytes of a signature under a parameter set.
fn len_of(param: OtsParam) -> usize {
    match param {
        OtsParam::W1 => 8516,
        OtsParam::W2 => 4292,
        OtsParam::W4 => 2180,
        OtsParam::W8 => 1124,
    }
}

/// The public key that Bouncy Castle 1.72 made.
fn key_of(param: OtsParam) -> Result<[u8; 32], Fail> {
    Ok(<[u8; 32] as FromHex>::from_hex(match param {
        OtsParam::W1 => "2b649c7df2a9eb9cff00225403d69aff53e461f033f293e3fc66ffdbb7e3e492",
        OtsParam::W2 => "f74163f46b74d0281a99540f957a20956bba5262e9efd6cd724a314b8a04a5e3",
        OtsParam::W4 => "5f60a7b746239a7d03d9599999a80c039e6fa411459b02b5313d102803199885",
        OtsParam::W8 => "80d71898185123e68887c0e1c1ca104e7ed5d1a241da088c28e413201c4d9a4b",
    })?)
}

/// The SHA-256 of the signature that it made.
fn digest_of(param: OtsParam) -> Result<[u8; 32], Fail> {
    Ok(<[u8; 32] as FromHex>::from_hex(match param {
        OtsParam::W1 => "e904066c351beab9e7c4b1e00b2f3bada873970b53b4c017f09ea1954b7ae7eb",
        OtsParam::W2 => "243ceb05cf61169ae588f762eb1775af10b98561782b04961c1a0282c113004a",
        OtsParam::W4 => "bb2355462c51790c62a88ecb0bcd00bcc7d88bd81dbb6f6008ec9333a651c1a8",
        OtsParam::W8 => "90f7e65dc0ce6eebbf984240c67079f1ad9fcd05ec864e0e8b61f87f3bbbcd8e",
    })?)
}

/// The signature of the message under a parameter set.
fn signed(alloc: Global, param: OtsParam) -> Result<Vec<u8>, Fail> {
    let mut signature = vec![in alloc; 0; sig_len(param)]?;
    sign(param, &ID, LEAF, &SEED, &MESSAGE, &mut signature);
    Ok(signature)
}

/// The key to which bytes lead as a signature of the message; None where they are refused.
fn leads_to(param: OtsParam, signature: &[u8]) -> Option<[u8; 32]> {
    candidate(param, &ID, LEAF, &MESSAGE, signature).ok()
}

/// Whether the signature is that of Bouncy Castle, and leads to its key.
fn is_as_made(param: OtsParam, signature: &[u8]) -> Result<bool, Fail> {
    Ok(
        signature.len() == len_of(param)
            && Sha256::digest(signature) == digest_of(param)?
            && leads_to(param, signature) == Some(key_of(param)?),
    )
}

#[test]
fn keys_and_signatures_are_those_of_bouncy_castle(rt: HostRuntime) -> Result<(), Fail> {
    for param in PARAMS {
        assert!(rt; public(param, &ID, LEAF, &SEED) == key_of(param)?);
        assert!(rt; is_as_made(param, &signed(rt.alloc(), param)?)?);
    }
    Ok(())
}

/// The seed and the tree's id of test case 2 of RFC 8554, appendix F, its lower level.
fn seed_of_rfc() -> Result<([u8; 16], [u8; 32]), Fail> {
    Ok((
        <[u8; 16] as FromHex>::from_hex(rfc_8554::ID)?,
        <[u8; 32] as FromHex>::from_hex(rfc_8554::SEED)?,
    ))
}

/// The signature of that test case, made from its seed.
fn signed_as_rfc(alloc: Global) -> Result<Vec<u8>, Fail> {
    let (id, seed) = seed_of_rfc()?;
    let mut signature = vec![in alloc; 0; sig_len(OtsParam::W8)]?;
    let message = rfc_8554::MESSAGE.as_bytes();
    sign(
        OtsParam::W8,
        &id,
        rfc_8554::LEAF,
        &seed,
        message,
        &mut signature,
    );
    Ok(signature)
}

#[test]
fn the_signature_of_rfc_8554_comes_out_byte_for_byte(rt: HostRuntime) -> Result<(), Fail> {
    let expected = decode(rt.alloc(), rfc_8554::SIGNATURE)?;
    assert!(rt; signed_as_rfc(rt.alloc())?.as_slice() == expected.as_slice());
    Ok(())
}

#[test]
fn the_signature_of_rfc_8554_gives_the_key_of_its_seed(rt: HostRuntime) -> Result<(), Fail> {
    let (id, seed) = seed_of_rfc()?;
    let signature = decode(rt.alloc(), rfc_8554::SIGNATURE)?;
    let message = rfc_8554::MESSAGE.as_bytes();
    let key = candidate(OtsParam::W8, &id, rfc_8554::LEAF, message, &signature)?;
    assert!(rt; public(OtsParam::W8, &id, rfc_8554::LEAF, &seed) == key);
    Ok(())
}

/// Changes one bit of a byte, or changes it back.
fn flip(bytes: &mut [u8], place: usize) {
    if let Some(byte) = bytes.get_mut(place) {
        *byte ^= 1;
    }
}

/// Whether a signature with another byte here is refused for its typecode, or leads to another key.
fn changed_is_none(param: OtsParam, signature: &mut [u8], place: usize, key: &[u8; 32]) -> bool {
    flip(signature, place);
    let outcome = candidate(param, &ID, LEAF, &MESSAGE, signature);
    flip(signature, place);
    match outcome {
        Ok(other) => place >= 4 && other != *key,
        Err(OtsRefused::Typecode) => place < 4,
        Err(_) => false,
    }
}

/// Whether that is so of each of its bytes.
fn none_that_is_changed(param: OtsParam, signature: &mut [u8], key: &[u8; 32]) -> bool {
    for place in 0..signature.len() {
        if !changed_is_none(param, signature, place, key) {
            return false;
        }
    }
    true
}

#[test]
fn a_signature_with_one_byte_changed_gives_another_key_or_is_refused(
    rt: HostRuntime,
) -> Result<(), Fail> {
    for param in PARAMS {
        let key = key_of(param)?;
        assert!(rt; none_that_is_changed(param, &mut signed(rt.alloc(), param)?, &key));
    }
    Ok(())
}

/// Whether the bytes are refused for their length.
fn is_refused(param: OtsParam, signature: &[u8]) -> bool {
    candidate(param, &ID, LEAF, &MESSAGE, signature) == Err(OtsRefused::Length)
}

/// Whether a signature is refused without its last byte, with one more, and without any.
fn other_lengths_are_refused(param: OtsParam, signature: &mut Vec<u8>) -> Result<bool, Fail> {
    signature.push(0)?;
    let len = signature.len();
    let shorter = signature.get(..len.saturating_sub(2)).unwrap_or(b"");
    Ok(is_refused(param, signature) && is_refused(param, shorter) && is_refused(param, b""))
}

#[test]
fn a_signature_that_is_cut_or_lengthened_by_one_is_refused(rt: HostRuntime) -> Result<(), Fail> {
    for param in PARAMS {
        assert!(rt; other_lengths_are_refused(param, &mut signed(rt.alloc(), param)?)?);
    }
    Ok(())
}

/// Whether another message, another leaf and another tree lead to another key.
fn others_lead_elsewhere(param: OtsParam, signature: &[u8], key: &[u8; 32]) -> bool {
    candidate(param, &ID, LEAF, &OTHER_MESSAGE, signature) != Ok(*key)
        && candidate(param, &ID, LEAF + 1, &MESSAGE, signature) != Ok(*key)
        && candidate(param, &OTHER_ID, LEAF, &MESSAGE, signature) != Ok(*key)
}

#[test]
fn another_message_leaf_or_tree_gives_another_key(rt: HostRuntime) -> Result<(), Fail> {
    for param in PARAMS {
        assert!(rt; others_lead_elsewhere(param, &signed(rt.alloc(), param)?, &key_of(param)?));
    }
    Ok(())
}

#[test]
fn a_refusal_says_why(rt: HostRuntime) -> Result<(), Fail> {
    let length = format!(in rt.alloc(); "{}", OtsRefused::Length)?;
    assert!(rt; length.as_str() == "the signature has another length");
    let typecode = format!(in rt.alloc(); "{}", OtsRefused::Typecode)?;
    assert!(rt; typecode.as_str() == "the signature has another typecode");
    Ok(())
}

/// Whether two claims together give the keys that each gives alone, in both orders; None where one is refused.
fn give_both(first: &Claim<'_>, second: &Claim<'_>) -> bool {
    let one = candidate(first.param, first.id, first.q, first.msg, first.sig).ok();
    let two = candidate(second.param, second.id, second.q, second.msg, second.sig).ok();
    let both = one.zip(two);
    let turned = two.zip(one);
    candidates(first, second) == both && candidates(second, first) == turned
}

/// Whether that is so of signatures under two parameter sets, and where the second is cut.
fn both_hold(param: OtsParam, signature: &[u8], other_param: OtsParam, other: &[u8]) -> bool {
    let first = Claim {
        param,
        id: &ID,
        q: LEAF,
        msg: &MESSAGE,
        sig: signature,
    };
    let second = Claim {
        param: other_param,
        id: &OTHER_ID,
        q: LEAF + 1,
        msg: &OTHER_MESSAGE,
        sig: other,
    };
    let cut = Claim {
        sig: other.get(1..).unwrap_or(b""),
        ..second
    };
    give_both(&first, &second) && give_both(&first, &cut) && candidates(&first, &cut).is_none()
}

#[test]
fn two_signatures_give_the_keys_that_each_gives_alone(rt: HostRuntime) -> Result<(), Fail> {
    for param in PARAMS {
        let signature = signed(rt.alloc(), param)?;
        assert!(rt; leads_to(param, &signature) == Some(key_of(param)?));
        for other in PARAMS {
            assert!(rt; both_hold(param, &signature, other, &signed(rt.alloc(), other)?));
        }
    }
    Ok(())
}
