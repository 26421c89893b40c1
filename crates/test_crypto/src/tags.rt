// Tags against RFC 4231 (test cases 1 to 4, 6 and 7), and what a check says of a tag that is almost right.
use hex::{FromHex, decode};
use sp_hmac::Keyed;
use std::alloc::Global;
use std::test::Fail;

/// Rows of the key, the message and the tag.
const TAGS: &str = "\
0b0b0b0b0b0b0b0b0b0b0b0b0b0b0b0b0b0b0b0b|4869205468657265|b0344c61d8db38535ca8afceaf0bf12b881dc200c9833da726e9376c2e32cff7
4a656665|7768617420646f2079612077616e7420666f72206e6f7468696e673f|5bdcc146bf60754e6a042426089575c75a003f089d2739839dec58b964ec3843
aaaaaaaaaaaaaaaaaaaaaaaaaaaaaaaaaaaaaaaa|dddddddddddddddddddddddddddddddddddddddddddddddddddddddddddddddddddddddddddddddddddddddddddddddddddd|773ea91e\
36800e46854db8ebd09181a72959098b3ef8c122d9635514ced565fe
0102030405060708090a0b0c0d0e0f10111213141516171819|cdcdcdcdcdcdcdcdcdcdcdcdcdcdcdcdcdcdcdcdcdcdcdcdcdcdcdcdcdcdcdcdcdcdcdcdcdcdcdcdcdcdcdcdcdcdcdcdcdc\
d|82558a389a443c0ea4cc819899f2083a85f0faa3e578f8077a2e3ff46729665b
aaaaaaaaaaaaaaaaaaaaaaaaaaaaaaaaaaaaaaaaaaaaaaaaaaaaaaaaaaaaaaaaaaaaaaaaaaaaaaaaaaaaaaaaaaaaaaaaaaaaaaaaaaaaaaaaaaaaaaaaaaaaaaaaaaaaaaaaaaaaaaaaaaaaaa\
aaaaaaaaaaaaaaaaaaaaaaaaaaaaaaaaaaaaaaaaaaaaaaaaaaaaaaaaaaaaaaaaaaaaaaaaaaaaaaaaaaaaaaaaaaaaaaaaaaaaaaaaaaaaaaaa|54657374205573696e67204c6172676572205\
468616e20426c6f636b2d53697a65204b6579202d2048617368204b6579204669727374|60e431591ee0b67f0d8a26aacbf5b77f8e0bc6213728c5140546040f0ee37f54
aaaaaaaaaaaaaaaaaaaaaaaaaaaaaaaaaaaaaaaaaaaaaaaaaaaaaaaaaaaaaaaaaaaaaaaaaaaaaaaaaaaaaaaaaaaaaaaaaaaaaaaaaaaaaaaaaaaaaaaaaaaaaaaaaaaaaaaaaaaaaaaaaaaaaa\
aaaaaaaaaaaaaaaaaaaaaaaaaaaaaaaaaaaaaaaaaaaaaaaaaaaaaaaaaaaaaaaaaaaaaaaaaaaaaaaaaaaaaaaaaaaaaaaaaaaaaaaaaaaaaaaa|5468697320697320612074657374207573696\
e672061206c6172676572207468616e20626c6f636b2d73697a65206b657920616e642061206c6172676572207468616e20626c6f636b2d73697a6520646174612e20546865206b6579206\
e6565647320746f20626520686173686564206265666f7265206265696e6720757365642062792074686520484d414320616c676f726974686d2e|9b09ffa71b942fcb27635fbcd5b0e944\
bfdc63644f0713938a7f51535c3a35e2";

/// Whether the tag of the message comes out, and is right, where the message is cut.
fn comes_out(keyed: &Keyed, key: &[u8], data: &[u8], cut: usize, tag: &[u8; 32]) -> bool {
    let (a, b) = data.split_at_checked(cut).unwrap_or((data, b""));
    sp_hmac::tag(key, a, b) == *tag
        && sp_hmac::verify(key, a, b, tag)
        && keyed.tag(a, b) == *tag
        && keyed.verify(a, b, tag)
}

/// Whether that is so wherever it is cut.
fn comes_out_everywhere(key: &[u8], data: &[u8], tag: &[u8; 32]) -> bool {
    let keyed = Keyed::new(key);
    for cut in 0..data.len() {
        if !comes_out(&keyed, key, data, cut, tag) {
            return false;
        }
    }
    comes_out(&keyed, key, data, data.len(), tag)
}

/// Whether a row holds.
fn holds(alloc: Global, row: &str) -> Result<bool, Fail> {
    let mut fields = row.split('|');
    let key = decode(alloc, fields.next().unwrap_or(""))?;
    let data = decode(alloc, fields.next().unwrap_or(""))?;
    let tag = <[u8; 32] as FromHex>::from_hex(fields.next().unwrap_or(""))?;
    Ok(comes_out_everywhere(&key, &data, &tag))
}

#[test]
fn the_tags_of_rfc_4231_come_out_wherever_the_message_is_cut(rt: HostRuntime) -> Result<(), Fail> {
    for row in TAGS.lines() {
        assert!(rt; holds(rt.alloc(), row)?, "{row}");
    }
    Ok(())
}

/// Whether this is the tag of the second row.
fn is_right(tag: &[u8]) -> bool {
    sp_hmac::verify(b"Jefe", b"what do ya want ", b"for nothing?", tag)
}

/// The tag of the second row with a bit changed.
fn with_bit(place: usize, bit: u32) -> [u8; 32] {
    let mut tag = sp_hmac::tag(b"Jefe", b"what do ya want ", b"for nothing?");
    if let Some(byte) = tag.get_mut(place) {
        *byte ^= 1u8 << (bit % 8);
    }
    tag
}

#[test]
fn a_tag_with_one_bit_changed_is_wrong(rt: HostRuntime) -> Result<(), Fail> {
    for place in 0..32usize {
        for bit in 0..8u32 {
            assert!(rt;
                !is_right(&with_bit(place, bit)),
                "bit {bit} of byte {place}"
            );
        }
    }
    Ok(())
}

#[test]
fn a_tag_that_is_cut_or_lengthened_is_wrong(rt: HostRuntime) -> Result<(), Fail> {
    let mut longer = [0u8; 33];
    longer[..32].copy_from_slice(&sp_hmac::tag(b"Jefe", b"what do ya want ", b"for nothing?"));
    for len in 0..34usize {
        let tag = longer.get(..len).unwrap_or(b"");
        assert!(rt; is_right(tag) == (len == 32), "{len} bytes");
    }
    Ok(())
}
