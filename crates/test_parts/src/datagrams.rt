// Datagrams that are too long for a schedule, and each cut of a frame with all sections, which would be 370 MB of a schedule.
use hex::{FromHex, decode};
use sha2::{Digest, Sha256};
use sp_base::{Bytes, NodeId};
use sp_frame::{Frame, FrameRefused, SectionRefused};
use sp_hss::{LmsParam, Signer};
use sp_link::Link;
use sp_msg::{BodyRef, keep, signer};
use sp_sign::NodeSigner;
use std::alloc::Global;
use std::process::Abort;
use std::test::Fail;

/// The key of the edge between 1 and 2.
pub(crate) const KEY: &str = "281af100d4b1e63cad7c11897b0440500bef02a76c14e9b589b3c99d2d28e221";

/// The length of a signature at height 5.
const SIGNATURE_LEN: usize = 4756;

/// All sections: WEIGHT, PRIO, ACK and REL are the signed objects with their lengths.
const ALL_SECTIONS: &str =
    "01 WEIGHT 0000000000000003010000000000000009 PRIO 0102010000000000000007000000000000000801 ACK 01 REL";

/// Rows of the object's word, its body, its signer, its signer's seed, the index, and the SHA-256 of the signature.
const OBJECTS: &str = "\
WEIGHT|04020000000000000000000100000019|2|a7830c97485dedee2731bfafa824bdf8014e1948ad5d6ada0a4dcc0532c41141|0|de189218bc4be6542477a78ef0704abd6de1d9d4a\
bf7bd9adbf12d8f1061c7a4
PRIO|01020100000000000000010500000100000000000000000000000000000000000000000300026869|2|a7830c97485dedee2731bfafa824bdf8014e1948ad5d6ada0a4dcc0532c411\
41|1|361bc9d900cfb7d99be4846db594932c328b2e13d2d826b641edf760d96f0c23
ACK|0303010000000000000007|3|58d956ec4f9276bfc44968e66a9f531403f7e1e3dccb3ec3c896982a8096a45b|0|2ad3a09c949ac487da9558ebd46f02a0f3e9c7783c61b12d85fcd76a4664d5be
REL|0202010000000000000001000568656c6c6f|2|a7830c97485dedee2731bfafa824bdf8014e1948ad5d6ada0a4dcc0532c41141|2|5a48a1eaf6ff0191447ff24b7dda8ef8e9efd453\
936cba80709df19162351f19";

/// The signed object of a word, with its lengths, in hexadecimal.
fn object(rt: &impl Abort, alloc: Global, word: &str) -> Result<String, Fail> {
    for row in OBJECTS.lines() {
        let mut fields = row.split('|');
        let (name, body) = (fields.next(), fields.next().ok_or("no body")?);
        let (seed, index) = (
            fields.nth(1).ok_or("no seed")?,
            fields.next().ok_or("no index")?,
        );
        if name == Some(word) {
            let signature = signature(rt, alloc, body, seed, index.parse()?)?;
            let digest = <[u8; 32] as FromHex>::from_hex(fields.next().ok_or("no digest")?)?;
            assert_eq!(rt; Sha256::digest(&signature), digest, "{word}");
            let signed = hex::encode(alloc, &signature)?;
            return Ok(format!(in alloc;
                "{:04x}{body}{:04x}{signed}",
                body.len() / 2,
                signature.len()
            )?);
        }
    }
    Err("no object")?
}

/// The signature of a body by this seed with this index.
fn signature(
    rt: &impl Abort,
    alloc: Global,
    body: &str,
    seed: &str,
    index: u64,
) -> Result<Vec<u8>, Fail> {
    let bytes = decode(alloc, body)?;
    let body = BodyRef::read(&bytes)?;
    assert!(rt; index < 1024);
    let seed = <[u8; 32] as FromHex>::from_hex(seed)?;
    let unsigned = keep(alloc, &body, b"")?;
    let own = Signer::make(alloc, LmsParam::H5, seed, index, index + 1)?;
    let mut node = NodeSigner::new(signer(&body), own);
    let mut blank = node.blank(alloc, unsigned.body)?;
    node.sign(&mut blank)?;
    Ok(blank.kept.signature.into_vec())
}

/// The bytes of sections as they are written, in hexadecimal.
fn sections_of(rt: &impl Abort, alloc: Global, words: &str) -> Result<String, Fail> {
    let mut text = String::new(alloc);
    for word in words.split(' ') {
        match word {
            "WEIGHT" | "PRIO" | "ACK" | "REL" => text.push_str(object(rt, alloc, word)?.as_str())?,
            _ => text.push_str(word)?,
        }
    }
    Ok(text)
}

/// The sealed frame of these sections, from node 2 to node 1, both of boot 1, with this counter.
fn sealed(alloc: Global, counter: u64, sections: &[u8]) -> Result<Bytes, Fail> {
    let head = format!(in alloc;
        "53490102010000000000000001{:016x}{counter:016x}00000001",
        1
    )?;
    let mut frame = decode(alloc, head.as_str())?;
    frame.extend_from_slice(sections)?;
    frame.extend_from_slice(&[0; 32])?;
    let mut frame = Bytes::from_vec(frame);
    if frame.as_slice().len() < 32 {
        return Err("no room for a tag")?;
    }
    let key = <[u8; 32] as FromHex>::from_hex(KEY)?;
    Link::new(NodeId(1), NodeId(2), 1, key).seal(&mut frame);
    Ok(frame)
}

/// What the sections of a frame are, in words.
fn sections_answer(frame: &Frame<'_>) -> &'static str {
    match frame.sections(SIGNATURE_LEN) {
        Ok(_) => "fresh",
        Err(SectionRefused::Cut) => "section cut",
        Err(SectionRefused::Count) => "section count",
        Err(SectionRefused::Object) => "section object",
        Err(SectionRefused::Tail) => "section tail",
    }
}

#[test]
fn each_cut_of_all_sections_is_cut(rt: HostRuntime) -> Result<(), Fail> {
    let alloc = rt.alloc();
    let sections = sections_of(&rt, alloc, ALL_SECTIONS)?;
    let sections = decode(alloc, sections.as_str())?;
    for len in 0..sections.len() {
        let bytes = sealed(alloc, 1, &sections[..len])?;
        let frame = Frame::open(bytes.as_slice())?;
        assert_eq!(rt; sections_answer(&frame), "section cut", "{len}");
    }
    Ok(())
}

#[test]
fn a_datagram_of_one_byte_more_is_too_long(rt: HostRuntime) -> Result<(), Fail> {
    let alloc = rt.alloc();
    let long = vec![in alloc; 0x53u8; 65_508]?;
    match Frame::open(&long) {
        Err(FrameRefused::TooLong) => Ok(()),
        _ => Err("another answer".into()),
    }
}
