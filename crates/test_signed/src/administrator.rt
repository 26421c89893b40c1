// The administrator's signature of a topology: that of another program, and what doesn't count as one.
use crate::keys::{DOCUMENT, high_signer, low_signer, next, seed_of};
use hex::{decode, encode};
use sha2::{Digest, Sha256};
use sp_hss::Signer;
use sp_sign::check_topology;
use std::alloc::Global;
use std::process::Abort;
use std::test::Fail;

/// A document, its signature, and the administrator's key.
#[derive(Drop)]
struct SignedDocument {
    document: Vec<u8>,
    signature: Vec<u8>,
    key: [u8; 60],
}

/// The document, signed by the next index of a signer.
fn signed(alloc: Global, document: Vec<u8>, mut admin: Signer) -> Result<SignedDocument, Fail> {
    let key = admin.public();
    let signature = next(alloc, &mut admin, &document)?;
    Ok(SignedDocument {
        document,
        signature,
        key,
    })
}

/// The document of three nodes, signed with index 0.
fn low(alloc: Global) -> Result<SignedDocument, Fail> {
    signed(
        alloc,
        decode(alloc, DOCUMENT)?,
        low_signer(alloc, seed_of(0)?, 0, 1)?,
    )
}

/// The node's id and its key at height 10.
fn push_node(alloc: Global, document: &mut Vec<u8>, node: u8) -> Result<(), Fail> {
    document.push(node)?;
    document.extend_from_slice(&high_signer(alloc, seed_of(node)?, 0, 0)?.public())?;
    Ok(())
}

/// The document of two nodes and one edge at height 10, signed with index 5.
fn high(alloc: Global) -> Result<SignedDocument, Fail> {
    let mut document = decode(alloc, "4d544d5701000000010a02")?;
    push_node(alloc, &mut document, 1)?;
    push_node(alloc, &mut document, 2)?;
    document.extend_from_slice(b"\x00\x01\x01\x02\x00\x00\x00\x0a")?;
    signed(alloc, document, high_signer(alloc, seed_of(0)?, 5, 6)?)
}

/// Changes one bit of a byte.
fn flip_bit(bytes: &mut [u8], place: usize) {
    if let Some(byte) = bytes.get_mut(place) {
        *byte ^= 16;
    }
}

impl SignedDocument {
    /// Whether the signature counts.
    fn counts(&self) -> bool {
        check_topology(&self.key, &self.document, &self.signature)
    }

    /// Changes one bit of a byte of the document (0), of the key (1) or of the signature (2), or changes it back.
    fn flip(&mut self, part: u8, place: usize) {
        match part {
            0 => flip_bit(&mut self.document, place),
            1 => flip_bit(&mut self.key, place),
            _ => flip_bit(&mut self.signature, place),
        }
    }

    /// Whether the signature counts where a bit is changed.
    fn counts_changed(&mut self, part: u8, place: usize) -> bool {
        self.flip(part, place);
        let counts = self.counts();
        self.flip(part, place);
        counts
    }

    /// Whether it counts where so many bytes of the document and of the signature are there, with a byte 00 behind each.
    fn counts_cut(&self, alloc: Global, document: usize, signature: usize) -> Result<bool, Fail> {
        let mut longer = self.document.to_vec(alloc)?;
        longer.push(0)?;
        let mut longer_signature = self.signature.to_vec(alloc)?;
        longer_signature.push(0)?;
        let document = longer.get(..document).ok_or("no such bytes")?;
        let signature = longer_signature.get(..signature).ok_or("no such bytes")?;
        Ok(check_topology(&self.key, document, signature))
    }
}

/// The hash of bytes.
fn hash_of(alloc: Global, bytes: &[u8]) -> Result<String, Fail> {
    Ok(encode(alloc, Sha256::digest(bytes))?)
}

/// The hash of the document, the key, the bytes of the signature, and its hash.
fn told(alloc: Global, signed: &SignedDocument) -> Result<String, Fail> {
    let document = hash_of(alloc, &signed.document)?;
    let key = encode(alloc, signed.key)?;
    let signature = hash_of(alloc, &signed.signature)?;
    let len = signed.signature.len();
    Ok(format!(in alloc; "{document} {key} {len} {signature}")?)
}

const LOW: &str = "\
29f37a7c33b315f5e831f63a679a4fdc0b4f3d19cb1c16b6def4895dd5620e40 \
00000002000000050000000377d44244c44e582d3c0a9ee9cfb13e8592e7a7dc5fac8293acc0dc6fd70e10f0c344096dcccd60875865e074a45d2d83 4756 \
6dbbed212085dfbd873263502ee6f592ed76df2d5a6028a01b6a420e0133c908";

const HIGH: &str = "\
e50bf2753f1c17eda1771e9c4bc8af33093dd50de32bb6b3d6c33cc962586d24 \
00000002000000060000000377d44244c44e582d3c0a9ee9cfb13e8558d0a82be2c632433e5c97702fc3ef8f33db62f5ca2de50f80161819fe72aba5 5076 \
3389e661941a1636ff446b5ae3e0b6f9d3c54cc1b87e889b1c4b6bf976a6fffc";

#[test]
fn a_document_is_signed_as_by_another_program(rt: HostRuntime) -> Result<(), Fail> {
    let low = low(rt.alloc())?;
    assert!(rt; told(rt.alloc(), &low)?.as_str() == LOW && low.counts());
    Ok(())
}

#[test]
fn a_document_of_height_10_is_signed_as_by_another_program(rt: HostRuntime) -> Result<(), Fail> {
    let high = high(rt.alloc())?;
    assert!(rt; told(rt.alloc(), &high)?.as_str() == HIGH && high.counts());
    Ok(())
}

/// Of the document, of the key and of the signature: its number, how many of its bytes are changed, one after another, and how far they stand apart.
const CHANGES: [(u8, usize, usize); 3] = [(0, 208, 1), (1, 60, 1), (2, 102, 47)];

#[test]
fn what_is_changed_counts_no_more(rt: HostRuntime) -> Result<(), Fail> {
    let mut signed = low(rt.alloc())?;
    for (part, count, step) in CHANGES {
        for number in 0..count {
            let place = number.saturating_mul(step);
            assert!(rt; !signed.counts_changed(part, place), "{part} {place}");
        }
        assert!(rt; signed.counts());
    }
    Ok(())
}

/// How many bytes of the document and of the signature are there, and whether the signature counts.
const LENGTHS: [(usize, usize, bool); 5] = [
    (208, 4757, false),
    (208, 4755, false),
    (209, 4756, false),
    (207, 4756, false),
    (208, 4756, true),
];

#[test]
fn a_byte_more_or_less_counts_no_more(rt: HostRuntime) -> Result<(), Fail> {
    let signed = low(rt.alloc())?;
    for (document, signature, counts) in LENGTHS {
        let cut = signed.counts_cut(rt.alloc(), document, signature)?;
        assert!(rt; cut == counts, "{document} {signature}");
    }
    Ok(())
}

#[test]
fn a_nodes_key_is_not_the_administrators(rt: HostRuntime) -> Result<(), Fail> {
    let mut signed = low(rt.alloc())?;
    signed.key = low_signer(rt.alloc(), seed_of(1)?, 0, 1024)?.public();
    assert!(rt; !signed.counts());
    signed.signature.clear();
    assert!(rt; !signed.counts());
    Ok(())
}
