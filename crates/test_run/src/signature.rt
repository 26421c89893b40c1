// The administrator's signature in the output of `topology`: it is valid, until a bit of the document or of the signature changes.
use crate::program::run_over;
use hex::decode;
use sp_outside::{PlannedSink, PlannedSource};
use sp_sign::check_topology;
use std::alloc::Global;
use std::str;
use std::test::Fail;

/// Two nodes and one edge.
const DRAFT: &str = "version = 1
height = 5
admin_seed = \"a0a0a0a0a0a0a0a0a0a0a0a0a0a0a0a0a0a0a0a0a0a0a0a0a0a0a0a0a0a0a0a0\"
admin_index = 0

[[node]]
id = 1
seed = \"0101010101010101010101010101010101010101010101010101010101010101\"

[[node]]
id = 2
seed = \"0202020202020202020202020202020202020202020202020202020202020202\"

[[edge]]
a = 1
b = 2
weight = 10
";

/// The bytes of the document; the signature stands after them.
const DOCUMENT: usize = 141;

/// What `topology` writes for the draft.
pub(crate) fn output(alloc: Global) -> Result<Vec<u8>, Fail> {
    let mut source = PlannedSource::new(DRAFT.as_bytes(), 1_000, &[]);
    let mut sink = PlannedSink::new(alloc, 100_000, &[]);
    run_over(alloc, "topology", &mut source, &mut sink)?;
    Ok(Vec::from_slice(alloc, sink.bytes())?)
}

/// The signed document, and the administrator's key.
fn signed(alloc: Global) -> Result<(Vec<u8>, Vec<u8>), Fail> {
    let output = output(alloc)?;
    let (line, rest) = str::from_utf8(&output)?.split_once('\n').ok_or("no line")?;
    Ok((decode(alloc, line)?, decode(alloc, rest.trim_end())?))
}

fn is_valid(admin: &[u8; 60], signed: &[u8]) -> bool {
    match signed.split_at_checked(DOCUMENT) {
        Some((document, signature)) => check_topology(admin, document, signature),
        None => false,
    }
}

/// Changes a bit of this byte.
fn flip(bytes: &mut [u8], place: usize) {
    if let Some(byte) = bytes.get_mut(place) {
        *byte ^= 1u8 << (place % 8);
    }
}

/// Whether the document is valid with a bit of this byte changed.
fn is_valid_changed(admin: &[u8; 60], signed: &mut [u8], place: usize) -> bool {
    flip(signed, place);
    let is_valid = is_valid(admin, signed);
    flip(signed, place);
    is_valid
}

#[test]
fn the_signature_is_valid_until_a_bit_of_it_changes(rt: HostRuntime) -> Result<(), Fail> {
    let (mut signed, key) = signed(rt.alloc())?;
    let mut admin = [0u8; 60];
    assert!(rt; signed.len() == DOCUMENT + 4756 && key.len() == 60);
    admin.copy_from_slice(&key);
    assert!(rt; is_valid(&admin, &signed));
    for place in 0..signed.len() {
        assert!(rt;
            !is_valid_changed(&admin, &mut signed, place),
            "at byte {place}"
        );
    }
    Ok(())
}
