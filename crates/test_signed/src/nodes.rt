// Signed messages of nodes: the keys and signatures of another program, and what counts as a signature, by a check that remembers nothing and by a
// checker that remembers.
use crate::keys::{DOCUMENT, low_signer, seed_of};
use hex::{decode, encode};
use sha2::{Digest, Sha256};
use sp_base::NodeId;
use sp_hss::{HssRefused, Signer};
use sp_msg::{BodyRef, keep, signer};
use sp_sign::{Checker, NodeSigner, SignRefused, check};
use sp_topology::{NodeKey, Topology};
use std::alloc::Global;
use std::process::Abort;
use std::test::Fail;

/// Rows of the node, the index, the message, and the SHA-256 of the signature.
const SIGNATURES: &str = "\
1|0|020103000000000000000100026869|68a19dd0d538d0bd07f3276f5becce6b7ff240d0a6dae99ee7714107f63db5d5
1|1|01010200000000000000010500000000000000640000000000000000000000000000000300026869|\
3125c931693bcd198b7985c6ec8da382bcd141341344583b31a01bd92ec9f8f3
3|31|0301030000000000000001|1d2e55583dac4fba1ff72876bf8cbe5c9a3e7e362d8dd51128dba5312d039aeb
2|32|04020000000000000000000100000019|31614ebe24d35efa8628127a3545e47db70e340a9bd746a7652d29acae230c50
1|1023|0201037fffffffffffffff0400 and 1,024 bytes 00|a3efa1a8248f9f8e8d0439c6a3614d7f643bd642efce46dd404d9ee7c8b28313";

/// Rows of the answer, the message, the node that signs, the index, the message that it signs, and how the signature is changed: a number is the byte
/// that has another bit. The checker is the same for all rows, so it remembers.
const CHECKS: &str = "\
ok|020103000000000000000100026869|1|0|020103000000000000000100026869|
BadSignature|020103000000000000000100026869|3|0|020103000000000000000100026869|
BadSignature|020103000000000000000200026869|1|0|020103000000000000000100026869|
BadSignature|020103000000000000000100026869|1|0|020103000000000000000100026869|0
BadSignature|020103000000000000000100026869|1|0|020103000000000000000100026869|3
BadSignature|020103000000000000000100026869|1|0|020103000000000000000100026869|4
BadSignature|020103000000000000000100026869|1|0|020103000000000000000100026869|8
BadSignature|020103000000000000000100026869|1|0|020103000000000000000100026869|11
BadSignature|020103000000000000000100026869|1|0|020103000000000000000100026869|12
BadSignature|020103000000000000000100026869|1|0|020103000000000000000100026869|50
BadSignature|020103000000000000000100026869|1|0|020103000000000000000100026869|2300
BadSignature|020103000000000000000100026869|1|0|020103000000000000000100026869|2351
BadSignature|020103000000000000000100026869|1|0|020103000000000000000100026869|2352
BadSignature|020103000000000000000100026869|1|0|020103000000000000000100026869|2400
BadSignature|020103000000000000000100026869|1|0|020103000000000000000100026869|4755
BadSignature|020103000000000000000100026869|1|0|020103000000000000000100026869|without its last byte
BadSignature|020103000000000000000100026869|1|0|020103000000000000000100026869|with a byte more
BadSignature|020103000000000000000100026869|1|0|020103000000000000000100026869|no bytes
BadSignature|020103000000000000000100026869|1|0|020103000000000000000100026869|all bytes 00
ok|0301030000000000000001|3|0|0301030000000000000001|
BadSignature|0301030000000000000001|1|0|0301030000000000000001|
UnknownSigner|02040100000000000000010000|1|0|020103000000000000000100026869|
UnknownSigner|0301040000000000000001|1|0|0301040000000000000001|
ok|02010400000000000000010000|1|0|02010400000000000000010000|
ok|04020077000000000000000100000001|2|0|04020077000000000000000100000001|
BadSignature|02010200000000000000010000|2|0|02020100000000000000010000|
ok|02010200000000000000010000|1|30|02010200000000000000010000|
BadSignature|02020100000000000000010000|1|30|02010200000000000000010000|
ok|02020100000000000000010000|2|0|02020100000000000000010000|
BadSignature|02010200000000000000010000|2|1|02020100000000000000010000|
ok|02010200000000000000010000|1|31|02010200000000000000010000|
BadSignature|02020100000000000000010000|1|31|02010200000000000000010000|
ok|02020100000000000000010000|2|1|02020100000000000000010000|
BadSignature|02010200000000000000010000|2|2|02020100000000000000010000|
ok|02010200000000000000010000|1|32|02010200000000000000010000|
BadSignature|02020100000000000000010000|1|32|02010200000000000000010000|
ok|02020100000000000000010000|2|2|02020100000000000000010000|
BadSignature|02010200000000000000010000|2|3|02020100000000000000010000|
ok|02010200000000000000010000|1|33|02010200000000000000010000|
BadSignature|02020100000000000000010000|1|33|02010200000000000000010000|
ok|02020100000000000000010000|2|3|02020100000000000000010000|
ok|02010200000000000000010000|1|30|02010200000000000000010000|
BadSignature|02010200000000000000010000|1|30|02010200000000000000010000|3
ok|02010200000000000000010000|1|30|02010200000000000000010000|
BadSignature|02010200000000000000010000|1|30|02010200000000000000010000|50
ok|02010200000000000000010000|1|30|02010200000000000000010000|
BadSignature|02010200000000000000010000|1|30|02010200000000000000010000|2191
ok|02010200000000000000010000|1|30|02010200000000000000010000|
BadSignature|02010200000000000000010000|1|30|02010200000000000000010000|2360
ok|02010200000000000000010000|1|30|02010200000000000000010000|
BadSignature|02010200000000000000010000|1|30|02010200000000000000010000|2411
ok|02010200000000000000010000|1|30|02010200000000000000010000|
BadSignature|02010200000000000000010000|1|30|02010200000000000000010000|2420
ok|02010200000000000000010000|1|30|02010200000000000000010000|
BadSignature|02010200000000000000010000|1|30|02010200000000000000010000|4755
ok|02010200000000000000010000|1|30|02010200000000000000010000|
BadSignature|02010200000000000000010000|1|30|02010200000000000000010000|no bytes
UnknownSigner|02040100000000000000010000|1|30|02040100000000000000010000|";

/// The bytes of a row's message. 1,024 bytes 00 may follow.
fn bytes_of(alloc: Global, written: &str) -> Result<Vec<u8>, Fail> {
    let Some(digits) = written.strip_suffix(" and 1,024 bytes 00") else {
        return Ok(decode(alloc, written)?);
    };
    let mut bytes = decode(alloc, digits)?;
    bytes.extend_from_slice(&[0; 1024])?;
    Ok(bytes)
}

/// How a key signs a message, and the signature, or the blank as that leaves it.
fn signing(
    alloc: Global,
    bytes: &[u8],
    key: Signer,
) -> Result<(Result<(), HssRefused>, Vec<u8>), Fail> {
    let body = BodyRef::read(bytes)?;
    let mut own = NodeSigner::new(signer(&body), key);
    let mut blank = own.blank(alloc, keep(alloc, &body, b"")?.body)?;
    let ending = own.sign(&mut blank);
    Ok((ending, blank.kept.signature.into_vec()))
}

/// The signature of a message by a node's key at an index.
fn signed(alloc: Global, written: &str, node: &str, index: &str) -> Result<Vec<u8>, Fail> {
    let bytes = bytes_of(alloc, written)?;
    let key = low_signer(alloc, seed_of(node.parse()?)?, index.parse()?, 1024)?;
    let (ending, signature) = signing(alloc, &bytes, key)?;
    ending?;
    Ok(signature)
}

/// An answer in words.
fn told(answer: Result<(), SignRefused>) -> &'static str {
    match answer {
        Ok(()) => "ok",
        Err(SignRefused::UnknownSigner) => "UnknownSigner",
        Err(SignRefused::BadSignature) => "BadSignature",
    }
}

/// The answer of the check that remembers nothing.
fn answer(alloc: Global, bytes: &[u8], signature: &[u8]) -> Result<&'static str, Fail> {
    let (topology, _) = Topology::read(alloc, &decode(alloc, DOCUMENT)?)?;
    Ok(told(check(&topology, bytes, &BodyRef::read(bytes)?, signature)))
}

/// The answer of the checker.
fn remembered(checker: &mut Checker, bytes: &[u8], signature: &[u8]) -> Result<&'static str, Fail> {
    Ok(told(checker.check(bytes, &BodyRef::read(bytes)?, signature)))
}

/// A checker of the three nodes.
fn checker(alloc: Global) -> Result<Checker, Fail> {
    let (topology, _) = Topology::read(alloc, &decode(alloc, DOCUMENT)?)?;
    Ok(Checker::make(alloc, &topology)?)
}

/// Changes a bit of a byte.
fn flip(bytes: &mut [u8], place: usize) {
    if let Some(byte) = bytes.get_mut(place) {
        *byte ^= 1;
    }
}

/// Changes a signature as a row says.
fn change(signature: &mut Vec<u8>, how: &str) -> Result<(), Fail> {
    match how {
        "" => {}
        "without its last byte" => {
            signature.pop();
        }
        "with a byte more" => signature.push(0)?,
        "no bytes" => signature.clear(),
        "all bytes 00" => signature.fill(0),
        place => flip(signature, place.parse()?),
    }
    Ok(())
}

/// A row of a signature.
fn hold_signature(rt: &(impl Abort + AllocGlobal), row: &str) -> Result<(), Fail> {
    let mut fields = row.split('|');
    let node = fields.next().ok_or("no node")?;
    let index = fields.next().ok_or("no index")?;
    let written = fields.next().ok_or("no message")?;
    let signature = signed(rt.alloc(), written, node, index)?;
    let hash = encode(rt.alloc(), Sha256::digest(&signature))?;
    assert!(rt; hash.as_str() == fields.next().ok_or("no hash")?, "{row}");
    assert!(rt;
        answer(rt.alloc(), &bytes_of(rt.alloc(), written)?, &signature)? == "ok",
        "{row}"
    );
    Ok(())
}

#[test]
fn signatures_are_those_of_another_program(rt: HostRuntime) -> Result<(), Fail> {
    for row in SIGNATURES.lines() {
        hold_signature(&rt, row)?;
    }
    Ok(())
}

/// The changed signature of the last fields of a check's row.
fn changed(alloc: Global, fields: &str) -> Result<Vec<u8>, Fail> {
    let mut fields = fields.split('|');
    let node = fields.next().ok_or("no node")?;
    let index = fields.next().ok_or("no index")?;
    let mut signature = signed(alloc, fields.next().ok_or("no message")?, node, index)?;
    change(&mut signature, fields.next().ok_or("no change")?)?;
    Ok(signature)
}

/// A row of a check.
fn hold_check(
    rt: &(impl Abort + AllocGlobal),
    checker: &mut Checker,
    row: &str,
) -> Result<(), Fail> {
    let (wanted, rest) = row.split_once('|').ok_or("no row")?;
    let (written, rest) = rest.split_once('|').ok_or("no message")?;
    let bytes = decode(rt.alloc(), written)?;
    let signature = changed(rt.alloc(), rest)?;
    assert!(rt; answer(rt.alloc(), &bytes, &signature)? == wanted, "{row}");
    assert!(rt; remembered(checker, &bytes, &signature)? == wanted, "{row}");
    Ok(())
}

#[test]
fn a_signature_counts_under_the_key_of_its_signer_alone(rt: HostRuntime) -> Result<(), Fail> {
    let mut checker = checker(rt.alloc())?;
    for row in CHECKS.lines() {
        hold_check(&rt, &mut checker, row)?;
    }
    Ok(())
}

/// The key of a node in the other program.
fn key_of(node: u8) -> &'static str {
    match node {
        1 =>
            "000000020000000500000003a35a52528a685b19928b81c16c10137fcafba0f182baa295984002084ebde385b25cf54e9f5c54fbe1ca2893a24acc11",
        2 =>
            "0000000200000005000000039f7f0f08d24e86a12c3d3f3b44e67746a23dbf0fb23145a5d2970f226bd57ac8a7061fa3d964b8177d7a0f0eab1277ee",
        _ =>
            "000000020000000500000003de8970db65bfd18ecd3e0055c8e92befb89861b14c3d2c33b39f8052642e2215b75e752af05c2cdd965152858b2d41bd",
    }
}

/// Whether a node's key in the topology is that of its seed.
fn has_own_key(alloc: Global, named: &NodeKey) -> Result<bool, Fail> {
    let made = low_signer(alloc, seed_of(named.id.0)?, 0, 1024)?.public();
    let right = decode(alloc, key_of(named.id.0))?;
    Ok(right.as_slice() == made.as_slice() && right.as_slice() == named.key.as_slice())
}

#[test]
fn keys_are_those_of_another_program(rt: HostRuntime) -> Result<(), Fail> {
    let (topology, _) = Topology::read(rt.alloc(), &decode(rt.alloc(), DOCUMENT)?)?;
    for named in topology.nodes.as_slice() {
        assert!(rt; has_own_key(rt.alloc(), named)?);
    }
    Ok(())
}

/// The indexes of a signer of node 1, from one up to, and not with, another, and how it signs the first message: 0 signed, 1 not reserved
/// from 1,023 on, 2 spent at 1,024. A signer that refuses leaves the blank as it was.
const ENDINGS: [(u64, u64, u8); 3] = [(1023, 1023, 1), (1024, 1024, 2), (1023, 1024, 0)];

/// How a signing ended, by its number.
fn number_of(ending: Result<(), HssRefused>) -> u8 {
    match ending {
        Ok(()) => 0,
        Err(HssRefused::NotReserved { bound: 1023 }) => 1,
        Err(HssRefused::Spent { index: 1024 }) => 2,
        Err(_) => 3,
    }
}

/// How a signer ends, and whether its blank is as it was.
fn ending(alloc: Global, from: u64, upto: u64) -> Result<(u8, bool), Fail> {
    let bytes = decode(alloc, "020103000000000000000100026869")?;
    let key = low_signer(alloc, seed_of(1)?, from, upto)?;
    let (ending, signature) = signing(alloc, &bytes, key)?;
    Ok((number_of(ending), signature.iter().all(|byte| *byte == 0)))
}

#[test]
fn a_signer_signs_at_its_last_index_and_else_leaves_the_blank_as_it_was(
    rt: HostRuntime,
) -> Result<(), Fail> {
    for (from, upto, number) in ENDINGS {
        let ended = ending(rt.alloc(), from, upto)?;
        assert!(rt; ended == (number, number != 0), "{from} {upto}");
    }
    Ok(())
}

#[test]
fn a_bound_moves_on(rt: HostRuntime) -> Result<(), Fail> {
    let mut own = NodeSigner::new(NodeId(1), low_signer(rt.alloc(), seed_of(1)?, 5, 7)?);
    assert!(rt; own.bound() <= 9 && 9 <= own.total());
    own.extend(9);
    assert!(rt; (own.index(), own.bound(), own.total()) == (5, 9, 1024));
    Ok(())
}
