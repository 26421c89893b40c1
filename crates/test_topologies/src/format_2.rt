// Documents of both formats held against rows that two programs outside the project gave: good ones, refused ones, and each cut of one.

use crate::format_2_rows::{GOOD, KEYS, REFUSED};
use crate::topologies::refusal_of;
use hex::decode;
use sp_topology::Topology;
use std::alloc::Global;
use std::test::Fail;

/// Appends the key of this place.
fn push_key(alloc: Global, bytes: &mut Vec<u8>, place: usize) -> Result<(), Fail> {
    for (known, key) in KEYS.lines().enumerate() {
        if known == place {
            bytes.extend_from_slice(&decode(alloc, key)?)?;
        }
    }
    Ok(())
}

/// The bytes of digits with keys among them.
fn bytes_of(alloc: Global, written: &str) -> Result<Vec<u8>, Fail> {
    let mut bytes = Vec::new(alloc);
    for part in written.split('[') {
        let mut digits = part;
        if let Some((place, rest)) = part.split_once(']') {
            push_key(alloc, &mut bytes, place.parse()?)?;
            digits = rest;
        }
        bytes.extend_from_slice(&decode(alloc, digits)?)?;
    }
    Ok(bytes)
}

#[test]
fn a_good_document_is_read_and_written(rt: HostRuntime) -> Result<(), Fail> {
    let alloc = rt.alloc();
    for row in GOOD.lines() {
        let (length, rest) = row.split_once('|').ok_or("no text")?;
        let (what, written) = rest.split_once('|').ok_or("no bytes")?;
        let bytes = bytes_of(alloc, written)?;
        let (topology, read) = Topology::read(alloc, &bytes)?;
        assert_eq!(rt; Ok(read), length.parse(), "{what}");
        let document = bytes.get(..read).ok_or("no document")?;
        assert!(rt; topology.write(alloc)?.as_slice() == document, "{what}");
        assert_eq!(rt; Some(topology.format), document.get(4).copied(), "{what}");
    }
    Ok(())
}

#[test]
fn a_bad_document_is_refused_at_its_first_fault(rt: HostRuntime) -> Result<(), Fail> {
    let alloc = rt.alloc();
    for row in REFUSED.lines() {
        let (refusal, rest) = row.split_once('|').ok_or("no reason")?;
        let (why, written) = rest.split_once('|').ok_or("no bytes")?;
        let bytes = bytes_of(alloc, written)?;
        assert_eq!(rt; refusal_of(alloc, &bytes), refusal, "{why}");
    }
    Ok(())
}

#[test]
fn each_cut_of_a_document_is_short(rt: HostRuntime) -> Result<(), Fail> {
    let alloc = rt.alloc();
    let (_, first) = GOOD.split_once("|high ids|").ok_or("no row")?;
    let bytes = bytes_of(alloc, first.lines().next().ok_or("no bytes")?)?;
    for length in 0..bytes.len() {
        let cut = bytes.get(..length).ok_or("no cut")?;
        assert_eq!(rt; refusal_of(alloc, cut), "Short", "{length}");
    }
    Ok(())
}
