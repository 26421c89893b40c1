// What is no request, from a port with a session: it neither runs nor counts.
use crate::talk::Talk;
use std::alloc::Global;
use std::process::Abort;
use std::test::Fail;

/// One of these on each line. A bar stands for a newline.
const NO_REQUESTS: &str = r"2
open
2 open|
|2 open
 2 open
2  open
2 open 
2 Open
2 opened
02 open
+2 open
0 open
9223372036854775808 open
18446744073709551618 open
2 open 1
2 listen -
2 close 2
2 takeprio 3
2 send 3
2 send 3 00 00
2 send 03 00
2 send 256 00
2 send - 00
2 send 3 0A
2 send 3 0
2 send 3 0g
2 send 3 --
2 send 3 
2 sendprio 3 0 9 0 -
2 sendprio 3 11 9 0 -
2 sendprio 3 5 9 9 -
2 sendprio 3 5 18446744073709551616 0 -
2 sendprio 3 5 9 0
2 sendprio 256 5 9 0 -
2 take
2 take 256
2 take 3 3
2 weight 2 0
2 weight 2 1000001
2 weight 256 10
2 weight 2";

/// What is a request, though its node is no right end.
const NO_ENDS: &str = "49000 2 send 0 - = 2 badend
49000 3 send 1 - = 3 badend
49000 4 send 255 - = 4 badend
49000 5 sendprio 1 10 18446744073709551615 8 - = 5 badend
49000 6 weight 1 1000000 = 6 badend
49000 7 weight 0 1 = 7 badend";

fn is_no_request(rt: &impl Abort, talk: &mut Talk, bytes: &[u8], row: &str) -> Result<(), Fail> {
    assert_eq!(rt; talk.reply(49000, bytes)?.as_str(), "0 badrequest", "{row}");
    Ok(())
}

/// None of the rows is a request, with a session and without.
fn are_no_requests(rt: &(impl Abort + AllocGlobal), talk: &mut Talk) -> Result<(), Fail> {
    is_no_request(rt, talk, b"", "no bytes")?;
    talk.rows(rt, "49000 1 open = 1 opened")?;
    for row in NO_REQUESTS.lines() {
        let request = row.replace(rt.alloc(), "|", "\n")?;
        is_no_request(rt, talk, request.as_bytes(), row)?;
    }
    assert_eq!(rt; talk.node.calls, 0);
    talk.rows(rt, NO_ENDS)
}

#[test]
fn what_is_no_request_is_told_so_and_touches_no_session(rt: HostRuntime) -> Result<(), Fail> {
    are_no_requests(&rt, &mut Talk::new(rt.alloc())?)
}

/// A request `2 send 3` of so many bytes of payload.
fn send_of(alloc: Global, payload: usize) -> Result<String, Fail> {
    let mut request = String::from_str(alloc, "2 send 3 ")?;
    for _ in 0..payload {
        request.push_str("00")?;
    }
    Ok(request)
}

/// A payload of 1,025 bytes is none, and one of 1,024 bytes is.
fn has_a_longest(rt: &(impl Abort + AllocGlobal), talk: &mut Talk) -> Result<(), Fail> {
    talk.rows(rt, "49000 1 open = 1 opened")?;
    let longer = send_of(rt.alloc(), 1_025)?;
    is_no_request(rt, talk, longer.as_bytes(), "1,025 bytes")?;
    let longest = send_of(rt.alloc(), 1_024)?;
    let reply = talk.reply(49000, longest.as_bytes())?;
    assert_eq!(rt; reply.as_str(), "2 accepted 1");
    Ok(())
}

#[test]
fn a_payload_has_at_most_1024_bytes(rt: HostRuntime) -> Result<(), Fail> {
    has_a_longest(&rt, &mut Talk::new(rt.alloc())?)
}

/// So many bytes, all alike, are no request.
fn is_none_of(
    rt: &(impl Abort + AllocGlobal),
    talk: &mut Talk,
    byte: u8,
    count: usize,
) -> Result<(), Fail> {
    let bytes = vec![in rt.alloc(); byte; count]?;
    is_no_request(rt, talk, &bytes, "bytes that are alike")
}

#[test]
fn a_datagram_of_many_bytes_is_no_request(rt: HostRuntime) -> Result<(), Fail> {
    let mut talk = Talk::new(rt.alloc())?;
    for count in [4_096usize, 4_097, 65_507] {
        is_none_of(&rt, &mut talk, b' ', count)?;
        is_none_of(&rt, &mut talk, b'1', count)?;
    }
    Ok(())
}
