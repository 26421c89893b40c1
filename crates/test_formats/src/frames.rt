// Frames of format 2 held against rows that two programs outside the project gave: good ones, refused ones, each cut, and documents.
use crate::frames_rows::{OBJECTS, ROWS};
use hex::decode;
use sp_base::{FORMAT_2, NodeId};
use sp_frame::{Frame, FrameRefused, Head, SectionRefused, Sections, write_document};
use std::alloc::Global;
use std::process::Abort;
use std::test::Fail;

/// The length of a signature at height 5.
const SIGNATURE_LEN: usize = 4756;

/// The head of the frame of this number: from node 2 to node 1, both of boot 1, under version 1 of a topology of format 2.
fn head(counter: u64) -> Head {
    Head {
        from: NodeId(2),
        to: NodeId(1),
        boot: 1,
        echo: 1,
        counter,
        topology: 1,
        format: FORMAT_2,
    }
}

/// The bytes of a frame with these sections, and zeros in the place of its tag.
fn frame_of(alloc: Global, sections: &[u8]) -> Result<Vec<u8>, Fail> {
    let mut frame = decode(
        alloc,
        "534902020100000000000000010000000000000001000000000000000100000001",
    )?;
    frame.extend_from_slice(sections)?;
    frame.extend_from_slice(&[0; 32])?;
    Ok(frame)
}

/// Appends the message of this word with its signature, both after their lengths. Whether there is one.
fn push_object(alloc: Global, bytes: &mut Vec<u8>, word: &str) -> Result<bool, Fail> {
    for row in OBJECTS.lines() {
        let (name, rest) = row.split_once('|').ok_or("no bytes")?;
        let (body, zeros) = rest.split_once('|').ok_or("no count")?;
        if name == word {
            let zeros: usize = zeros.parse()?;
            bytes.extend_from_slice(&decode(alloc, body)?)?;
            bytes.extend_from_slice(&vec![in alloc; 0; zeros]?)?;
            bytes.extend_from_slice(b"\x12\x94")?;
            bytes.extend_from_slice(&vec![in alloc; 0; SIGNATURE_LEN]?)?;
            return Ok(true);
        }
    }
    Ok(false)
}

/// The bytes of sections: digits, and the words of messages.
fn bytes_of(alloc: Global, written: &str) -> Result<Vec<u8>, Fail> {
    let mut bytes = Vec::new(alloc);
    for word in written.split(' ') {
        if !push_object(alloc, &mut bytes, word)? {
            bytes.extend_from_slice(&decode(alloc, word)?)?;
        }
    }
    Ok(bytes)
}

/// The kinds of the objects that a node of today handles, in their order.
fn kinds_of(alloc: Global, sections: &Sections<'_>) -> Result<String, Fail> {
    let mut text = String::new(alloc);
    text.push_str("fresh")?;
    if sections.weight.is_some() {
        text.push_str(" weight")?;
    }
    for _ in 0..sections.prios.len() {
        text.push_str(" prio")?;
    }
    if let Some(slot) = &sections.slot {
        if slot.ack.is_some() {
            text.push_str(" ack")?;
        }
        for _ in 0..slot.rels.len() {
            text.push_str(" rel")?;
        }
    }
    Ok(text)
}

/// What the sections of a frame are, in the words of the rows.
fn answer_of(alloc: Global, frame: &Frame<'_>) -> Result<String, Fail> {
    let word = match frame.sections(SIGNATURE_LEN) {
        Ok(sections) => return kinds_of(alloc, &sections),
        Err(SectionRefused::Cut) => "section cut",
        Err(SectionRefused::Count) => "section count",
        Err(SectionRefused::Object) => "section object",
        Err(SectionRefused::Tail) => "section tail",
    };
    Ok(word.to_string(alloc)?)
}

#[test]
fn sections_are_read_as_the_rows_say(rt: HostRuntime) -> Result<(), Fail> {
    let alloc = rt.alloc();
    for row in ROWS.lines() {
        let (answer, rest) = row.split_once('|').ok_or("no text")?;
        let (what, written) = rest.split_once('|').ok_or("no sections")?;
        let bytes = frame_of(alloc, &bytes_of(alloc, written)?)?;
        let frame = Frame::open_in(&bytes, FORMAT_2)?;
        assert_eq!(rt; frame.head(), head(1));
        assert_eq!(rt; answer_of(alloc, &frame)?.as_str(), answer, "{what}");
    }
    Ok(())
}

#[test]
fn each_cut_of_sections_is_cut(rt: HostRuntime) -> Result<(), Fail> {
    let alloc = rt.alloc();
    let (_, all) = ROWS.split_once("|all|").ok_or("no row")?;
    let sections = bytes_of(alloc, all.lines().next().ok_or("no sections")?)?;
    for step in 0..sections.len() / 7 {
        let bytes = frame_of(alloc, &sections[..7 * step])?;
        let frame = Frame::open_in(&bytes, FORMAT_2)?;
        assert_eq!(rt; answer_of(alloc, &frame)?.as_str(), "section cut", "{step}");
    }
    Ok(())
}

#[test]
fn a_document_is_written_and_read(rt: HostRuntime) -> Result<(), Fail> {
    let alloc = rt.alloc();
    for length in [0, 104, 65_426] {
        let document = vec![in alloc; 0x4du8; length]?;
        let bytes = write_document(alloc, &head(9), &document)?;
        assert_eq!(rt; bytes.as_slice().len(), length + 81);
        let sections = Frame::open_in(bytes.as_slice(), FORMAT_2)?.sections(SIGNATURE_LEN)?;
        assert!(rt; sections.document == Some(document.as_slice()));
    }
    Ok(())
}

#[test]
fn a_frame_is_of_the_format_that_was_asked_for(rt: HostRuntime) -> Result<(), Fail> {
    let alloc = rt.alloc();
    let bytes = frame_of(alloc, &[0; 14])?;
    assert!(rt; Frame::open_in(&bytes, FORMAT_2).is_ok());
    assert_eq!(rt; Frame::open(&bytes).err(), Some(FrameRefused::Version));
    Ok(())
}
