// Messages held against rows that another program's table of fields gave: good ones, refused ones, and each cut of four.
ghost use Rattle.sp_msg.specs.Bodies.{HasGoodFields};
ghost use Rattle.sp_msg.specs.Views.{as_body};

use crate::told::{answer_of, assert_cuts, bytes_of, fields_of, push_long};
use hex::decode;
use sha2::{Digest, Sha256};
use sp_base::{EdgeId, FORMAT_1};
use sp_msg::{
    BodyRef, Effect, Effects, Mask, Why, encode, encoded_len, keep, mask_has, push_body, signer,
};
use std::alloc::Global;
use std::process::Abort;
use std::test::Fail;

/// Rows of the fields, the signer and the bytes. A mask is in hexadecimal, and no payload is a dash.
const GOOD: &str = "\
rel 1 3 1 6869|1|020103000000000000000100026869
ack 1 3 1|3|0301030000000000000001
prio 1 2 1 5 100 00000000000000000000000000000003 6869|1|01010200000000000000010500000000000000640000000000000000000000000000000300026869
weight 1 0 1 25|1|04010000000000000000000100000019
rel 1 16 9223372036854775807 -|1|0201107fffffffffffffff0000
prio 16 1 9223372036854775807 10 18446744073709551615 00ffffffffffffffffffffffffffffff 00|16|0110017fffffffffffffff0affffffffffffffff00ffffffffffffffffffffffffffffff000100
prio 1 1 1 1 0 00000000000000000000000000000000 -|1|0101010000000000000001010000000000000000000000000000000000000000000000000000
ack 16 16 9223372036854775807|16|0310107fffffffffffffff
weight 16 119 9223372036854775807 1000000|16|041000777fffffffffffffff000f4240
weight 1 0 1 1|1|04010000000000000000000100000001
rel 3 4 4145823292899356485 1bcccea6762e61|3|0203043988ec51c2ce6f4500071bcccea6762e61
rel 4 4 19424881949307226 2de50472433d2e44d8b6b8|4|020404004502d3c464715a000b2de50472433d2e44d8b6b8
rel 4 1 1 1e029a8a3f415b026cf0|4|0204010000000000000001000a1e029a8a3f415b026cf0
weight 14 1 4573060771682795504 244407|14|040e00013f76c68af06d3ff00003bab7
ack 8 10 4|10|03080a0000000000000004
prio 10 3 8920940196447031805 9 155 000000000000000000000000259aeba8 df64a0d8b4dff0|10|010a037bcd8bd7efba91fd09000000000000009b000000000000000000000000259aeba80007df64a0d8b4dff0";

/// The bytes before a payload of 1,024 bytes, 00 to ff four times, and the SHA-256 of all of the message.
const LONG: &str = "02100100000000000000010400";

const LONG_HASH: &str = "8f834977bafc8b7189a823af52aa5e4ad633178249de831fc1970bd81865814a";

/// Rows of the bytes, the refusal and why. `Short` has the bytes that the field needs and those that are left.
const REFUSED: &str = "\
-|Short 1 0|no byte
0001010101010101010101010101010101010101010101010101010101010101010101010101010101|Kind|no kind
0501010101010101010101010101010101010101010101010101010101010101010101010101010101|Kind|no kind
ff01010101010101010101010101010101010101010101010101010101010101010101010101010101|Kind|no kind
01000200000000000000010500000000000000640000000000000000000000000000000300026869|Range Src|Src is 0
0100|Range Src|and nothing behind it
01110200000000000000010500000000000000640000000000000000000000000000000300026869|Range Src|Src is 17
0111|Range Src|and nothing behind it
01ff0200000000000000010500000000000000640000000000000000000000000000000300026869|Range Src|Src is 255
01ff|Range Src|and nothing behind it
01010000000000000000010500000000000000640000000000000000000000000000000300026869|Range Dst|Dst is 0
010100|Range Dst|and nothing behind it
01011100000000000000010500000000000000640000000000000000000000000000000300026869|Range Dst|Dst is 17
010111|Range Dst|and nothing behind it
0101ff00000000000000010500000000000000640000000000000000000000000000000300026869|Range Dst|Dst is 255
0101ff|Range Dst|and nothing behind it
01010200000000000000000500000000000000640000000000000000000000000000000300026869|Range Seq|Seq is 0
0101020000000000000000|Range Seq|and nothing behind it
01010280000000000000000500000000000000640000000000000000000000000000000300026869|Range Seq|Seq is 9223372036854775808
0101028000000000000000|Range Seq|and nothing behind it
010102ffffffffffffffff0500000000000000640000000000000000000000000000000300026869|Range Seq|Seq is 18446744073709551615
010102ffffffffffffffff|Range Seq|and nothing behind it
01010200000000000000010000000000000000640000000000000000000000000000000300026869|Range Prio|Prio is 0
010102000000000000000100|Range Prio|and nothing behind it
01010200000000000000010b00000000000000640000000000000000000000000000000300026869|Range Prio|Prio is 11
01010200000000000000010b|Range Prio|and nothing behind it
0101020000000000000001ff00000000000000640000000000000000000000000000000300026869|Range Prio|Prio is 255
0101020000000000000001ff|Range Prio|and nothing behind it
01010200000000000000010500000000000000640100000000000000000000000000000000026869|Range Mask|Mask is beyond its end
010102000000000000000105000000000000006401000000000000000000000000000000|Range Mask|and nothing behind it
0101020000000000000001050000000000000064ffffffffffffffffffffffffffffffff00026869|Range Mask|Mask is beyond its end
0101020000000000000001050000000000000064ffffffffffffffffffffffffffffffff|Range Mask|and nothing behind it
01010200000000000000010500000000000000640000000000000000000000000000000304016869|Range Length|Length is 1025
0101020000000000000001050000000000000064000000000000000000000000000000030401|Range Length|and nothing behind it
010102000000000000000105000000000000006400000000000000000000000000000003ffff6869|Range Length|Length is 65535
010102000000000000000105000000000000006400000000000000000000000000000003ffff|Range Length|and nothing behind it
01000000000000000000000000000000000000000000000000000000000000000000000000000000|Range Src|more than one field is bad: the first counts
0101020000000000000001050000000000000064000000000000000000000000000000030002686900|Tail|one byte more
01010200000000000000010500000000000000640000000000000000000000000000000300016869|Tail|the length says less
01010200000000000000010500000000000000640000000000000000000000000000000300036869|Short 3 2|the length says more
0101020000000000000001050000000000000064000000000000000000000000000000030401 and 1025 bytes 00|Range Length|1,025 bytes
020003000000000000000100026869|Range Src|Src is 0
0200|Range Src|and nothing behind it
021103000000000000000100026869|Range Src|Src is 17
0211|Range Src|and nothing behind it
02ff03000000000000000100026869|Range Src|Src is 255
02ff|Range Src|and nothing behind it
020100000000000000000100026869|Range Dst|Dst is 0
020100|Range Dst|and nothing behind it
020111000000000000000100026869|Range Dst|Dst is 17
020111|Range Dst|and nothing behind it
0201ff000000000000000100026869|Range Dst|Dst is 255
0201ff|Range Dst|and nothing behind it
020103000000000000000000026869|Range Seq|Seq is 0
0201030000000000000000|Range Seq|and nothing behind it
020103800000000000000000026869|Range Seq|Seq is 9223372036854775808
0201038000000000000000|Range Seq|and nothing behind it
020103ffffffffffffffff00026869|Range Seq|Seq is 18446744073709551615
020103ffffffffffffffff|Range Seq|and nothing behind it
020103000000000000000104016869|Range Length|Length is 1025
02010300000000000000010401|Range Length|and nothing behind it
0201030000000000000001ffff6869|Range Length|Length is 65535
0201030000000000000001ffff|Range Length|and nothing behind it
020000000000000000000000000000|Range Src|more than one field is bad: the first counts
02010300000000000000010002686900|Tail|one byte more
020103000000000000000100016869|Tail|the length says less
020103000000000000000100036869|Short 3 2|the length says more
020103000000000000000104010000 and 1023 bytes 00|Range Length|1,025 bytes
0300030000000000000001|Range Src|Src is 0
0300|Range Src|and nothing behind it
0311030000000000000001|Range Src|Src is 17
0311|Range Src|and nothing behind it
03ff030000000000000001|Range Src|Src is 255
03ff|Range Src|and nothing behind it
0301000000000000000001|Range Dst|Dst is 0
030100|Range Dst|and nothing behind it
0301110000000000000001|Range Dst|Dst is 17
030111|Range Dst|and nothing behind it
0301ff0000000000000001|Range Dst|Dst is 255
0301ff|Range Dst|and nothing behind it
0301030000000000000000|Range Seq|Seq is 0
0301038000000000000000|Range Seq|Seq is 9223372036854775808
030103ffffffffffffffff|Range Seq|Seq is 18446744073709551615
0300000000000000000000|Range Src|more than one field is bad: the first counts
030103000000000000000100|Tail|one byte more
04000000000000000000000100000019|Range Origin|Origin is 0
0400|Range Origin|and nothing behind it
04110000000000000000000100000019|Range Origin|Origin is 17
0411|Range Origin|and nothing behind it
04ff0000000000000000000100000019|Range Origin|Origin is 255
04ff|Range Origin|and nothing behind it
04010078000000000000000100000019|Range Edge|Edge is 120
04010078|Range Edge|and nothing behind it
0401ffff000000000000000100000019|Range Edge|Edge is 65535
0401ffff|Range Edge|and nothing behind it
04010000000000000000000000000019|Range Seq|Seq is 0
040100000000000000000000|Range Seq|and nothing behind it
04010000800000000000000000000019|Range Seq|Seq is 9223372036854775808
040100008000000000000000|Range Seq|and nothing behind it
04010000ffffffffffffffff00000019|Range Seq|Seq is 18446744073709551615
04010000ffffffffffffffff|Range Seq|and nothing behind it
04010000000000000000000100000000|Range Weight|Weight is 0
040100000000000000000001000f4241|Range Weight|Weight is 1000001
040100000000000000000001ffffffff|Range Weight|Weight is 4294967295
04000000000000000000000000000000|Range Origin|more than one field is bad: the first counts
0401000000000000000000010000001900|Tail|one byte more";

/// Rows of a good message, and what its first 0, 1, 2 .. bytes need and have left.
const CUTS: &str = "\
01010200000000000000010500000000000000640000000000000000000000000000000300026869|1 0, 1 0, 1 0, 8 0, 8 1, 8 2, 8 3, 8 4, 8 5, 8 6, 8 7, 1 0, 8 0, 8 1, 8 2, 8 3, 8 4, 8 5, 8 6, 8 7, 16 0, 16 1, 16 2, 16 3, 16 4, 16 5, 16 6, 16 7, 16 8, 16 9, 16 10, 16 11, 16 12, 16 13, 16 14, 16 15, 2 0, 2 1, 2 0, 2 1
020103000000000000000100026869|1 0, 1 0, 1 0, 8 0, 8 1, 8 2, 8 3, 8 4, 8 5, 8 6, 8 7, 2 0, 2 1, 2 0, 2 1
0301030000000000000001|1 0, 1 0, 1 0, 8 0, 8 1, 8 2, 8 3, 8 4, 8 5, 8 6, 8 7
04010000000000000000000100000019|1 0, 1 0, 2 0, 2 1, 8 0, 8 1, 8 2, 8 3, 8 4, 8 5, 8 6, 8 7, 4 0, 4 1, 4 2, 4 3";

/// The bytes are read as these fields of this signer.
fn assert_reads(
    rt: &impl Abort,
    alloc: Global,
    bytes: &[u8],
    fields: &str,
    by: &str,
) -> Result<(), Fail> {
    let body = BodyRef::read(bytes)?;
    assert_eq!(rt; fields_of(alloc, &body, FORMAT_1)?.as_str(), fields);
    assert_eq!(rt; Ok(signer(&body).0), by.parse());
    assert_encodes(rt, alloc, &body, bytes)
}

/// The message is encoded as these bytes, by a copy of one that is kept.
fn assert_encodes(
    rt: &impl Abort,
    alloc: Global,
    body: &BodyRef<'_>,
    bytes: &[u8],
) -> Result<(), Fail>
    requires { HasGoodFields (as_body body.now) }
{
    let copy = keep(alloc, body, b"signature")?.copy(alloc)?;
    assert_eq!(rt; copy.signature.as_slice(), b"signature".as_slice());
    assert_eq!(rt; encoded_len(&copy.body, FORMAT_1), bytes.len());
    let mut out = encode(alloc, &copy.body)?.into_vec();
    assert_eq!(rt; out.as_slice(), bytes);
    push_body(&mut out, &copy.body, FORMAT_1)?;
    assert_eq!(rt; out.strip_prefix(bytes), Some(bytes));
    Ok(())
}

#[test]
fn a_good_message_is_read_and_encoded(rt: HostRuntime) -> Result<(), Fail> {
    let alloc = rt.alloc();
    for row in GOOD.lines() {
        let (fields, rest) = row.split_once('|').ok_or("no signer")?;
        let (by, word) = rest.split_once('|').ok_or("no bytes")?;
        assert_reads(&rt, alloc, &decode(alloc, word)?, fields, by)?;
    }
    Ok(())
}

#[test]
fn a_message_of_1024_bytes_is_read_and_encoded(rt: HostRuntime) -> Result<(), Fail> {
    let alloc = rt.alloc();
    let mut bytes = decode(alloc, LONG)?;
    push_long(&mut bytes)?;
    assert_eq!(rt;
        hex::encode(alloc, Sha256::digest(&bytes))?.as_str(),
        LONG_HASH
    );
    let body = BodyRef::read(&bytes)?;
    assert_encodes(&rt, alloc, &body, &bytes)
}

#[test]
fn a_bad_message_is_refused_at_its_first_wrong_field(rt: HostRuntime) -> Result<(), Fail> {
    let alloc = rt.alloc();
    for row in REFUSED.lines() {
        let (word, rest) = row.split_once('|').ok_or("no refusal")?;
        let (refusal, why) = rest.split_once('|').ok_or("no reason")?;
        let bytes = bytes_of(alloc, word)?;
        assert_eq!(rt;
            answer_of(alloc, &bytes, FORMAT_1)?.as_str(),
            refusal,
            "{why}: {word}"
        );
    }
    Ok(())
}

#[test]
fn each_cut_of_a_good_message_is_short(rt: HostRuntime) -> Result<(), Fail> {
    let alloc = rt.alloc();
    for row in CUTS.lines() {
        assert_cuts(&rt, alloc, row, FORMAT_1)?;
    }
    Ok(())
}

#[test]
fn a_mask_has_the_edges_of_its_bits(rt: HostRuntime) {
    for edge in 0..256 {
        let mask = Mask::of(EdgeId(edge));
        for other in 0..400 {
            assert_eq!(rt;
                mask_has(&mask, EdgeId(other)),
                other == edge,
                "{edge} and {other}"
            );
        }
    }
    let all = Mask {
        low: u128::MAX,
        high: u128::MAX,
    };
    assert!(rt; mask_has(&all, EdgeId(255)));
    assert!(rt; !mask_has(&all, EdgeId(256)));
    assert!(rt; !mask_has(&all, EdgeId(u16::MAX)));
    let both = Mask::of(EdgeId(127)).with(Mask::of(EdgeId(128)));
    assert_eq!(rt; (both.low, both.high), (1 << 127, 1));
    assert_eq!(rt; both.with(Mask::none()), both);
}

#[test]
fn effects_stand_in_their_order(rt: HostRuntime) -> Result<(), Fail> {
    let alloc = rt.alloc();
    assert_eq!(rt; Effects::with_room(alloc, 0)?.room(), 0);
    let mut effects = Effects::with_room(alloc, 3)?;
    for (id, why) in [(1, Why::Evicted), (2, Why::Taken)] {
        assert!(rt; effects.room() > 1);
        effects.push(Effect::Gone { place: 9, id, why });
    }
    assert_eq!(rt; effects.room(), 1);
    let text = format!(in alloc; "{:?}", effects.as_slice())?;
    assert_eq!(rt;
        text.as_str(),
        "[Gone { place: 9, id: 1, why: Evicted }, Gone { place: 9, id: 2, why: Taken }]"
    );
    assert_eq!(rt; effects.into_vec().len(), 2);
    Ok(())
}
