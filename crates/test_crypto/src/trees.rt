// Keys of one tree: their signatures, from the first leaf to the last, against RFC 8554 and Bouncy Castle 1.72.
use crate::rfc_8554;
use hex::{FromHex, decode, encode};
use sha2::{Digest, Sha256};
use sp_lms::{LmsKey, LmsParam, LmsRefused, sig_len, verify};
use sp_ots::OtsParam;
use std::alloc::Global;
use std::process::Abort;
use std::test::Fail;

/// The id and the seed of the trees of Bouncy Castle, and the message of all signatures.
pub(crate) const ID: [u8; 16] = [0, 1, 2, 3, 4, 5, 6, 7, 8, 9, 10, 11, 12, 13, 14, 15];

pub(crate) const SEED: [u8; 32] = [
    0, 1, 2, 3, 4, 5, 6, 7, 8, 9, 10, 11, 12, 13, 14, 15, 16, 17, 18, 19, 20, 21, 22, 23, 24, 25,
    26, 27, 28, 29, 30, 31,
];

pub(crate) const MESSAGE: [u8; 15] = [2, 1, 3, 0, 0, 0, 0, 0, 0, 0, 1, 0, 2, b'h', b'i'];

/// Rows of w, the bytes of a signature, the root where it is known, and what is done with a key of height 5: a number of signatures is made; one is
/// made whose SHA-256 this is; the leaves below one are given `up`; the next signature is `none`; the key is made `again`. The row without a root
/// begins with another seed.
const KEYS: &str = "\
1|8684|9e5ed965b3bdb76b27a25ff423a60df69a7888430bebe8077b8b12b7a02fc9ab|1119d7f22e475d2e97f2a02a455418878228cef35170586edf2f07b2eb35556b, up 31, \
4993bcea6e5dc4fa2c708d3dfcef7ed543493788bcdc29e136d8680fd9ae6d88, none
2|4460|b3ca7292b787481d4b6f36772d6d666d1c40514b10671cf2c8a1048fa2dd9b0e|34cab208eab9d7e807c940e37e08357626ee8322507fcfa9f163a6bbde73461f, up 31, \
b8d9779d49faa7133ae6870716e956cecd86791d11836ad364d8f2ed5081fb8b, none
4|2348|a0e11306c37bc1bbcccb535e4af6b0cd6211b96525158bddc4b2e6dc71ece9f8|d2c82ae79e6d944cf790d7ef81f97d4351a164053755d7fb1d82bfdb967558ee, up 31, \
f5a01bc0e7ccb0931044ddfd4502ce960a05bc04aee3a28a4d05b2c33fe2c3c2, none
8|1292|4db6b505bbacc26859926e0699624289475f114285f3103aaa900a84d593428c|0217d5fd4fd6e0369b3a5017312134181befbc56b2d392808afe934e1e471333, up 31, \
580f9e671126e95b420537b19ddbc5e5ff89fa5c37527e3b5a1938a48fb5387f, none
8|1292|4db6b505bbacc26859926e0699624289475f114285f3103aaa900a84d593428c|32, none
4|2348||up 32, again, d2c82ae79e6d944cf790d7ef81f97d4351a164053755d7fb1d82bfdb967558ee";

/// The next signature of the message by a tree, or why there is none.
pub(crate) fn next(alloc: Global, key: &mut LmsKey) -> Result<Result<Vec<u8>, LmsRefused>, Fail> {
    let mut signature = vec![in alloc; 0; key.signature_len()]?;
    match key.sign(&MESSAGE, &mut signature) {
        Ok(()) => Ok(Ok(signature)),
        Err(refused) => Ok(Err(refused)),
    }
}

/// Whether the signature is valid, and neither without its last byte nor with another first one.
fn is_good(public: &[u8; 56], signature: &mut [u8]) -> bool {
    let front = signature
        .get(..signature.len().saturating_sub(1))
        .unwrap_or(b"");
    if !verify(public, &MESSAGE, signature) || verify(public, &MESSAGE, front) {
        return false;
    }
    if let Some(first) = signature.first_mut() {
        *first ^= 1;
    }
    !verify(public, &MESSAGE, signature)
}

/// The hash of the next signature, which has so many bytes and is good; no text of another. One leaf more is used.
fn signs(alloc: Global, key: &mut LmsKey, len: usize) -> Result<String, Fail> {
    let used = key.used();
    let Ok(mut signature) = next(alloc, key)? else {
        return Ok(String::new(alloc));
    };
    let hash = encode(alloc, Sha256::digest(&signature))?;
    let is_right = signature.len() == len
        && key.used() > used
        && is_good(&key.public(), &mut signature);
    Ok(if is_right { hash } else { String::new(alloc) })
}

/// Makes so many signatures.
fn signs_all(alloc: Global, key: &mut LmsKey, len: usize, count: u32) -> Result<bool, Fail> {
    for _ in 0..count {
        if signs(alloc, key, len)?.is_empty() {
            return Ok(false);
        }
    }
    Ok(true)
}

/// Gives up the leaves below one.
fn skip_to(key: &mut LmsKey, leaf: u32) -> bool {
    if leaf < key.used() || key.total() < leaf {
        return false;
    }
    key.skip_to(leaf);
    key.used() == leaf
}

/// Whether the next signature is refused, since no leaf is left.
fn is_spent(alloc: Global, key: &mut LmsKey) -> Result<bool, Fail> {
    Ok(matches!(next(alloc, key)?, Err(LmsRefused::Spent)) && key.used() == key.total())
}

/// Does one thing of a row, which comes out as it says.
fn step(alloc: Global, key: &mut LmsKey, len: usize, word: &str) -> Result<bool, Fail> {
    match word {
        "none" => return is_spent(alloc, key),
        "again" => {
            key.remake(ID, SEED);
            return Ok(key.used() == 0);
        }
        _ => {}
    }
    if let Some(leaf) = word.strip_prefix("up ") {
        return Ok(skip_to(key, leaf.parse()?));
    }
    match word.parse::<u32>() {
        Ok(count) => signs_all(alloc, key, len, count),
        Err(_) => Ok(signs(alloc, key, len)?.as_str() == word),
    }
}

/// The parameter set of a row.
fn param_of(w: &str) -> OtsParam {
    match w {
        "1" => OtsParam::W1,
        "2" => OtsParam::W2,
        "4" => OtsParam::W4,
        _ => OtsParam::W8,
    }
}

/// The key of a row.
fn made(alloc: Global, param: OtsParam, root: &str) -> Result<LmsKey, Fail> {
    let (id, seed) = if root.is_empty() {
        ([7; 16], [9; 32])
    } else {
        (ID, SEED)
    };
    Ok(LmsKey::make(alloc, LmsParam::H5, param, id, seed)?)
}

/// Whether the public key has this root, where it is known, and signatures have so many bytes.
fn begins(
    alloc: Global,
    key: &LmsKey,
    param: OtsParam,
    len: usize,
    root: &str,
) -> Result<bool, Fail> {
    let typecode = param.typecode();
    let public = format!(in alloc; "00000005{typecode:08x}000102030405060708090a0b0c0d0e0f{root}")?;
    let is_known = root.is_empty() || encode(alloc, key.public())?.as_str() == public.as_str();
    Ok(is_known && key.signature_len() == len && sig_len(LmsParam::H5, param) == len)
}

/// The key does all that a row wants, and each comes out as it says.
fn does_all(
    rt: &(impl Abort + AllocGlobal),
    key: &mut LmsKey,
    len: usize,
    words: &str,
) -> Result<(), Fail> {
    for word in words.split(", ") {
        assert!(rt; step(rt.alloc(), key, len, word)?, "{word}");
    }
    Ok(())
}

/// One row.
fn hold(rt: &(impl Abort + AllocGlobal), row: &str) -> Result<(), Fail> {
    let mut fields = row.split('|');
    let param = param_of(fields.next().unwrap_or(""));
    let len: usize = fields.next().unwrap_or("").parse()?;
    let root = fields.next().unwrap_or("");
    let words = fields.next().unwrap_or("");
    let mut key = made(rt.alloc(), param, root)?;
    assert!(rt; begins(rt.alloc(), &key, param, len, root)?, "{row}");
    does_all(rt, &mut key, len, words)
}

#[test]
fn keys_sign_as_bouncy_castle_until_no_leaf_is_left(rt: HostRuntime) -> Result<(), Fail> {
    for row in KEYS.lines() {
        hold(&rt, row)?;
    }
    Ok(())
}

#[test]
fn a_key_of_height_15_signs_with_its_last_leaf(rt: HostRuntime) -> Result<(), Fail> {
    let mut key = LmsKey::make(rt.alloc(), LmsParam::H15, OtsParam::W1, ID, SEED)?;
    let len = sig_len(LmsParam::H15, OtsParam::W1);
    assert!(rt; skip_to(&mut key, 32767));
    assert!(rt; !signs(rt.alloc(), &mut key, len)?.is_empty());
    assert!(rt; is_spent(rt.alloc(), &mut key)?);
    Ok(())
}

/// The key of RFC 8554, appendix F, test case 2, made from its seed.
fn key_of_rfc(alloc: Global) -> Result<LmsKey, Fail> {
    let id = <[u8; 16] as FromHex>::from_hex(rfc_8554::ID)?;
    let seed = <[u8; 32] as FromHex>::from_hex(rfc_8554::SEED)?;
    Ok(LmsKey::make(alloc, LmsParam::H5, OtsParam::W8, id, seed)?)
}

/// Its signature in the standard.
fn signature_of_rfc(alloc: Global) -> Result<Vec<u8>, Fail> {
    let leaf = rfc_8554::LEAF;
    let one_time = rfc_8554::SIGNATURE;
    let path = rfc_8554::PATH;
    let digits = format!(in alloc; "{leaf:08x}{one_time}00000005{path}")?;
    Ok(decode(alloc, digits)?)
}

/// Its signature as the key makes it.
fn signed_as_rfc(alloc: Global, key: &mut LmsKey) -> Result<Vec<u8>, Fail> {
    let mut signature = vec![in alloc; 0; key.signature_len()]?;
    key.sign(rfc_8554::MESSAGE.as_bytes(), &mut signature)?;
    Ok(signature)
}

#[test]
fn the_key_and_the_signature_of_rfc_8554_come_out_byte_for_byte(
    rt: HostRuntime,
) -> Result<(), Fail> {
    let mut key = key_of_rfc(rt.alloc())?;
    let expected = signature_of_rfc(rt.alloc())?;
    assert!(rt; encode(rt.alloc(), key.public())?.as_str() == rfc_8554::PUBLIC);
    assert!(rt; verify(&key.public(), rfc_8554::MESSAGE.as_bytes(), &expected));
    assert!(rt; skip_to(&mut key, rfc_8554::LEAF));
    assert!(rt; signed_as_rfc(rt.alloc(), &mut key)?.as_slice() == expected.as_slice());
    Ok(())
}
