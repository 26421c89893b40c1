// Messages of format 2 held against rows that another program and a second table of fields gave: good ones, refused ones, and each cut.
ghost use Rattle.sp_msg.specs.Bodies.{HasGoodFieldsIn};
ghost use Rattle.sp_msg.specs.Views.{as_body};
ghost use Rattle.sp_base.specs.declared.format.TheConstants.{FORMAT_2};

use crate::format_2_rows::{CUTS, GOOD, REFUSED};
use crate::told::{answer_of, assert_cuts, bytes_of, fields_of, push_long};
use sp_base::{FORMAT_1, FORMAT_2};
use sp_msg::{BodyRef, encode_in, encoded_len, keep, push_body, signer};
use std::alloc::Global;
use std::fmt::Write;
use std::process::Abort;
use std::test::Fail;

/// Good messages of format 1, and the answers in format 2.
const FIRST: &str = "\
020103000000000000000100026869|Short 8 4
0301030000000000000001|Short 8 0
01010200000000000000010500000000000000640000000000000000000000000000000300026869|Range Prio
04010000000000000000000100000019|ok
0201107fffffffffffffff0000|Short 8 2
0110017fffffffffffffff0affffffffffffffff00ffffffffffffffffffffffffffffff000100|Range Prio
0101010000000000000001010000000000000000000000000000000000000000000000000000|Range Prio
0310107fffffffffffffff|Short 8 0
041000777fffffffffffffff000f4240|ok
04010000000000000000000100000001|ok
0203043988ec51c2ce6f4500071bcccea6762e61|Short 8 1
020404004502d3c464715a000b2de50472433d2e44d8b6b8|Short 8 5
0204010000000000000001000a1e029a8a3f415b026cf0|Short 8 4
040e00013f76c68af06d3ff00003bab7|ok
03080a0000000000000004|Short 8 0
010a037bcd8bd7efba91fd09000000000000009b000000000000000000000000259aeba80007df64a0d8b4dff0|Range Prio";

/// The message is encoded as these bytes, by a copy of one that is kept.
fn assert_encodes(
    rt: &impl Abort,
    alloc: Global,
    body: &BodyRef<'_>,
    bytes: &[u8],
) -> Result<(), Fail>
    requires { HasGoodFieldsIn FORMAT_2 (as_body body.now) }
{
    let copy = keep(alloc, body, b"signature")?.copy(alloc)?;
    assert_eq!(rt; encoded_len(&copy.body, FORMAT_2), bytes.len());
    let mut out = encode_in(alloc, &copy.body, FORMAT_2)?.into_vec();
    assert_eq!(rt; out.as_slice(), bytes);
    push_body(&mut out, &copy.body, FORMAT_2)?;
    assert_eq!(rt; out.strip_prefix(bytes), Some(bytes));
    Ok(())
}

#[test]
fn a_good_message_is_read_and_encoded(rt: HostRuntime) -> Result<(), Fail> {
    let alloc = rt.alloc();
    for row in GOOD.lines() {
        let (fields, rest) = row.split_once('|').ok_or("no signer")?;
        let (by, rest) = rest.split_once('|').ok_or("no answer")?;
        let (first, word) = rest.split_once('|').ok_or("no bytes")?;
        let bytes = bytes_of(alloc, word)?;
        let body = BodyRef::read_in(&bytes, FORMAT_2)?;
        assert_eq!(rt; fields_of(alloc, &body, FORMAT_2)?, whole(alloc, fields)?);
        assert_eq!(rt; Ok(signer(&body).0), by.parse());
        assert_encodes(&rt, alloc, &body, &bytes)?;
        assert_eq!(rt;
            answer_of(alloc, &bytes, FORMAT_1)?.as_str(),
            first,
            "{word}"
        );
    }
    Ok(())
}

/// The fields of a row, the payload of 1,024 bytes in the place of a star.
fn whole(alloc: Global, fields: &str) -> Result<String, Fail> {
    let Some(front) = fields.strip_suffix("*") else {
        return Ok(fields.to_string(alloc)?);
    };
    let mut payload = Vec::new(alloc);
    push_long(&mut payload)?;
    let mut text = front.to_string(alloc)?;
    for byte in &payload {
        write!(text, "{byte:02x}")?;
    }
    Ok(text)
}

#[test]
fn a_bad_message_is_refused_at_its_first_wrong_field(rt: HostRuntime) -> Result<(), Fail> {
    let alloc = rt.alloc();
    for row in REFUSED.lines() {
        let (word, refusal) = row.split_once('|').ok_or("no refusal")?;
        let bytes = bytes_of(alloc, word)?;
        assert_eq!(rt;
            answer_of(alloc, &bytes, FORMAT_2)?.as_str(),
            refusal,
            "{word}"
        );
    }
    Ok(())
}

#[test]
fn each_cut_of_a_good_message_is_short(rt: HostRuntime) -> Result<(), Fail> {
    let alloc = rt.alloc();
    for row in CUTS.lines() {
        assert_cuts(&rt, alloc, row, FORMAT_2)?;
    }
    Ok(())
}

#[test]
fn a_message_of_format_1_is_judged_as_one_of_format_2(rt: HostRuntime) -> Result<(), Fail> {
    let alloc = rt.alloc();
    for row in FIRST.lines() {
        let (word, answer) = row.split_once('|').ok_or("no answer")?;
        let bytes = bytes_of(alloc, word)?;
        assert_eq!(rt;
            answer_of(alloc, &bytes, FORMAT_2)?.as_str(),
            answer,
            "{word}"
        );
    }
    Ok(())
}
