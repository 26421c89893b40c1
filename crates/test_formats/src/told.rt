// Messages and their refusals told as the rows have them.
use hex::decode;
use sp_base::FORMAT_1;
use sp_msg::{BodyRef, Mask, MsgRefused};
use std::alloc::Global;
use std::fmt::Write;
use std::process::Abort;
use std::test::Fail;

/// The bytes of a word: a dash is none, a star is the payload of 1,024 bytes, 00 to ff four times, and so many bytes 00 may follow.
pub fn bytes_of(alloc: Global, word: &str) -> Result<Vec<u8>, Fail> {
    let (digits, zeros) = word.split_once(" and ").unwrap_or((word, "0 bytes 00"));
    let zeros: usize = zeros.strip_suffix(" bytes 00").ok_or("no count")?.parse()?;
    let mut bytes = match digits.split_once('*') {
        Some((front, back)) => with_long(alloc, front, back)?,
        None => decode(alloc, digits.trim_start_matches('-'))?,
    };
    for _ in 0..zeros {
        bytes.push(0)?;
    }
    Ok(bytes)
}

/// The bytes of both words, and the payload of 1,024 bytes between them.
fn with_long(alloc: Global, front: &str, back: &str) -> Result<Vec<u8>, Fail> {
    let mut bytes = decode(alloc, front)?;
    push_long(&mut bytes)?;
    for byte in decode(alloc, back)?.as_slice() {
        bytes.push(*byte)?;
    }
    Ok(bytes)
}

/// Appends the payload of 1,024 bytes.
pub fn push_long(bytes: &mut Vec<u8>) -> Result<(), Fail> {
    for _ in 0..4 {
        for byte in 0..=255 {
            bytes.push(byte)?;
        }
    }
    Ok(())
}

/// The fields of a message as a row of this format has them: in format 1 without boots and the high half of a mask.
pub fn fields_of(alloc: Global, body: &BodyRef<'_>, format: u8) -> Result<String, Fail> {
    let first = format == FORMAT_1;
    match body {
        BodyRef::Prio(p) => {
            let mut text = ends(alloc, "prio", p.src.0, p.dst.0)?;
            push_boots(&mut text, &[p.sboot], first)?;
            write!(text, " {} {} {}", p.seq, p.prio, p.expiry)?;
            push_mask(&mut text, &p.mask, first)?;
            with_payload(text, p.payload)
        }
        BodyRef::Rel(r) => {
            let mut text = ends(alloc, "rel", r.src.0, r.dst.0)?;
            push_boots(&mut text, &[r.sboot, r.dboot], first)?;
            write!(text, " {}", r.seq)?;
            with_payload(text, r.payload)
        }
        BodyRef::Ack(a) => {
            let mut text = ends(alloc, "ack", a.src.0, a.dst.0)?;
            push_boots(&mut text, &[a.sboot, a.dboot], first)?;
            write!(text, " {}", a.seq)?;
            Ok(text)
        }
        BodyRef::Weight(w) => {
            let numbers = [w.origin.0.into(), w.edge.0.into(), w.seq, w.weight.into()];
            joined(alloc, "weight", &numbers)
        }
        BodyRef::Krel(r) => {
            let numbers = [r.src.0.into(), r.dst.0.into(), r.sboot, r.dboot, r.seq];
            let mut text = joined(alloc, "krel", &numbers)?;
            push_mask(&mut text, &r.mask, false)?;
            with_payload(text, r.payload)
        }
        BodyRef::Kack(a) => {
            let numbers = [a.src.0.into(), a.dst.0.into(), a.sboot, a.dboot, a.seq];
            joined(alloc, "kack", &numbers)
        }
        BodyRef::Epoch(e) => joined(alloc, "epoch", &[e.origin.0.into(), e.boot]),
    }
}

fn ends(alloc: Global, kind: &str, src: u8, dst: u8) -> Result<String, Fail> {
    joined(alloc, kind, &[src.into(), dst.into()])
}

/// The boots of ends, which a row of format 1 lacks.
fn push_boots(text: &mut String, boots: &[u64], first: bool) -> Result<(), Fail> {
    for boot in boots {
        if !first || *boot != 0 {
            write!(text, " {boot}")?;
        }
    }
    Ok(())
}

/// Both halves of a mask, of which a row of format 1 lacks the high one.
fn push_mask(text: &mut String, mask: &Mask, first: bool) -> Result<(), Fail> {
    if !first || mask.high != 0 {
        write!(text, " {:032x}", mask.high)?;
    }
    write!(text, " {:032x}", mask.low)?;
    Ok(())
}

/// A kind and the numbers after it.
fn joined(alloc: Global, kind: &str, numbers: &[u64]) -> Result<String, Fail> {
    let mut text = kind.to_string(alloc)?;
    for number in numbers {
        write!(text, " {number}")?;
    }
    Ok(text)
}

fn with_payload(mut text: String, payload: &[u8]) -> Result<String, Fail> {
    text.push_str(if payload.is_empty() { " -" } else { " " })?;
    for byte in payload {
        write!(text, "{byte:02x}")?;
    }
    Ok(text)
}

/// What these bytes are refused for in this format, or `ok`.
pub fn answer_of(alloc: Global, bytes: &[u8], format: u8) -> Result<String, Fail> {
    match BodyRef::read_in(bytes, format) {
        Ok(_) => Ok("ok".to_string(alloc)?),
        Err(MsgRefused::Short(short)) => {
            joined(alloc, "Short", &[short.need as u64, short.left as u64])
        }
        Err(MsgRefused::Range(field)) => Ok(format!(in alloc; "Range {field:?}")?),
        Err(other) => Ok(format!(in alloc; "{other:?}")?),
    }
}

/// What the first so many bytes of a message need and have left, for each number of them, is as a row says.
pub fn assert_cuts(rt: &impl Abort, alloc: Global, row: &str, format: u8) -> Result<(), Fail> {
    let (word, cuts) = row.split_once('|').ok_or("no cuts")?;
    let bytes = decode(alloc, word)?;
    assert_eq!(rt; cuts.split(", ").count(), bytes.len());
    for (len, cut) in cuts.split(", ").enumerate() {
        let front = bytes.get(..len).ok_or("too many cuts")?;
        assert_eq!(rt;
            answer_of(alloc, front, format)?,
            format!(in alloc; "Short {cut}")?,
            "{len} of {word}"
        );
    }
    Ok(())
}
