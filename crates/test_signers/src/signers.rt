// Signers of two levels with a seed of zeros, each with a verifier that remembers: their indexes, bounds and lower trees, as Bouncy Castle 1.72 has them.
use crate::keys::{MESSAGE, high_signer, low_signer};
use hex::FromHex;
use sha2::{Digest, Sha256};
use sp_hss::{Signer, Verifier, verify};
use std::alloc::Global;
use std::process::Abort;
use std::test::Fail;

/// Rows of the height, the first index, the bound, and what is done: a number of signatures is made, the bound goes on `to` another, or the next
/// signature is refused with these words.
const SIGNERS: &str = "\
5|0|1024|1
5|31|1024|1
5|32|1024|1
5|1023|1024|1
5|0|1024|1024, all 1024 signatures are made
5|31|32|1, no index from 32 on is reserved, no index from 32 on is reserved, to 33, 1
5|1024|1024|all 1024 signatures are made
10|1023|1048576|2";

/// The public key at height 5.
const PUBLIC: &str =
    "000000020000000500000003a9e445be3ba4aa1c0480b47605cbf13a3ab1b00756081c780451af3dc8be168ed94212b13c613e28a19636c235ffb347";

/// The SHA-256 of the signature of an index at height 5, where it is known.
fn digest(index: u64) -> Option<&'static str> {
    match index {
        0 => Some("cddb1e86bca2165e2c2b6613471977490abac1855bce09523449323b5f16d213"),
        31 => Some("471f3479407357b92553e4280d739ba1eb07d4ab17eaf3819eacb24365e4d421"),
        32 => Some("6f822750aa2ea1b57863a4f49ce3b3b36fb84e5ccf15252a2359d9c7533e655f"),
        1023 => Some("f0e688e716ca6ff2b36d1cb0a9af953b5fa75d3f72a09750f8579274d34bdebc"),
        _ => None,
    }
}

/// Whether a signature of height 5 is that of Bouncy Castle, where that is known.
fn is_as_made(index: u64, signature: &[u8]) -> Result<bool, Fail> {
    match digest(index) {
        Some(digest) => Ok(Sha256::digest(signature) == <[u8; 32] as FromHex>::from_hex(digest)?),
        None => Ok(true),
    }
}

/// The next signature, or the words with which it is refused.
fn signed(alloc: Global, signer: &mut Signer) -> Result<Result<Vec<u8>, String>, Fail> {
    let mut signature = vec![in alloc; 0; signer.signature_len()]?;
    match signer.sign(&MESSAGE, &mut signature) {
        Ok(()) => Ok(Ok(signature)),
        Err(refused) => Ok(Err(format!(in alloc; "{refused}")?)),
    }
}

/// Whether the check that remembers nothing and the verifier both take a signature.
fn is_taken(verifier: &mut Verifier, signature: &[u8]) -> bool {
    verify(verifier.public(), &MESSAGE, signature) && verifier.verify(&MESSAGE, signature)
}

/// Whether a signature of this index is one: of the right length, taken, and that of Bouncy Castle.
fn is_good(
    verifier: &mut Verifier,
    index: u64,
    total: u64,
    signature: &[u8],
) -> Result<bool, Fail> {
    if total == 1024 {
        return Ok(
            signature.len() == 4756
                && is_taken(verifier, signature)
                && is_as_made(index, signature)?,
        );
    }
    Ok(signature.len() == 5076 && is_taken(verifier, signature))
}

/// Makes the next signature, which is good. The index goes on by one.
fn sign(alloc: Global, signer: &mut Signer, verifier: &mut Verifier) -> Result<bool, Fail> {
    let index = signer.index();
    let Ok(signature) = signed(alloc, signer)? else {
        return Ok(false);
    };
    Ok(is_good(verifier, index, signer.total(), &signature)? && signer.index() > index)
}

/// Makes so many of them.
fn sign_all(
    alloc: Global,
    signer: &mut Signer,
    verifier: &mut Verifier,
    count: u32,
) -> Result<bool, Fail> {
    for _ in 0..count {
        if !sign(alloc, signer, verifier)? {
            return Ok(false);
        }
    }
    Ok(true)
}

/// Whether the next signature is refused with these words, and the index stays.
fn refuses(alloc: Global, signer: &mut Signer, words: &str) -> Result<bool, Fail> {
    let index = signer.index();
    match signed(alloc, signer)? {
        Ok(_) => Ok(false),
        Err(text) => Ok(text.as_str() == words && signer.index() == index),
    }
}

/// Reserves the indexes below a bound.
fn extend(signer: &mut Signer, upto: u64) -> bool {
    if upto < signer.bound() || signer.total() < upto {
        return false;
    }
    signer.extend(upto);
    signer.bound() == upto
}

/// Does one thing of a row, which comes out as it says.
fn step(
    alloc: Global,
    signer: &mut Signer,
    verifier: &mut Verifier,
    word: &str,
) -> Result<bool, Fail> {
    if let Some(upto) = word.strip_prefix("to ") {
        return Ok(extend(signer, upto.parse()?));
    }
    match word.parse::<u32>() {
        Ok(count) => sign_all(alloc, signer, verifier, count),
        Err(_) => refuses(alloc, signer, word),
    }
}

/// Does all of a row.
fn steps(rt: &(impl Abort + AllocGlobal), signer: &mut Signer, words: &str) -> Result<(), Fail> {
    let mut verifier = Verifier::make(rt.alloc(), &signer.public())?;
    for word in words.split(", ") {
        assert!(rt; step(rt.alloc(), signer, &mut verifier, word)?, "{word}");
    }
    Ok(())
}

/// A signer of this height with a seed of zeros, with its key, bound and total as they should be.
fn made(alloc: Global, height: &str, from: u64, upto: u64) -> Result<Signer, Fail> {
    match height {
        "5" => low_signer(alloc, [0; 32], from, upto),
        _ => high_signer(alloc, [0; 32], from, upto),
    }
}

/// Whether the signer has the bound, the total and the key of its height.
fn begins(alloc: Global, signer: &Signer, upto: u64) -> Result<bool, Fail> {
    let key = hex::encode(alloc, signer.public())?;
    let is_known = signer.total() == 1_048_576
        || (signer.total() == 1024 && key.as_str() == PUBLIC);
    Ok(is_known && signer.bound() == upto)
}

/// One row.
fn hold(rt: &(impl Abort + AllocGlobal), row: &str) -> Result<(), Fail> {
    let mut fields = row.split('|');
    let height = fields.next().ok_or("no height")?;
    let from = fields.next().ok_or("no index")?.parse()?;
    let upto = fields.next().ok_or("no bound")?.parse()?;
    let mut signer = made(rt.alloc(), height, from, upto)?;
    assert!(rt;
        signer.index() == from && begins(rt.alloc(), &signer, upto)?,
        "{row}"
    );
    steps(rt, &mut signer, fields.next().ok_or("nothing to do")?)
}

#[test]
fn signers_sign_at_each_index_and_are_refused_at_their_bounds(rt: HostRuntime) -> Result<(), Fail> {
    for row in SIGNERS.lines() {
        hold(&rt, row)?;
    }
    Ok(())
}
