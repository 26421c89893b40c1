// Dialogues over a node in memory, and how many of its calls were made.
use crate::dialogues::{BY_HAND, FIRST_TALK, SECOND_TALK};
use crate::talk::Talk;
use sp_base::Bytes;
use std::alloc::Global;
use std::process::Abort;
use std::test::Fail;

#[test]
fn each_rule_answers_in_its_turn(rt: HostRuntime) -> Result<(), Fail> {
    let mut talk = Talk::new(rt.alloc())?;
    talk.rows(&rt, BY_HAND)?;
    assert_eq!(rt; talk.node.calls, 5);
    Ok(())
}

#[test]
fn a_long_talk_is_answered_as_by_another_program(rt: HostRuntime) -> Result<(), Fail> {
    Talk::new(rt.alloc())?.rows(&rt, FIRST_TALK)
}

#[test]
fn another_long_talk_is_answered_so_too(rt: HostRuntime) -> Result<(), Fail> {
    Talk::new(rt.alloc())?.rows(&rt, SECOND_TALK)
}

/// A request that was sent three times and ran once; then only the last one of each session is repeated.
const REPEATS: &str = "9000 1 open = 1 opened
9001 1 open = 1 opened
9000 2 send 3 6869 = 2 accepted 1
9001 2 send 3 - = 2 accepted 2
9000 2 send 3 6869 = 2 accepted 1
9000 2 take 3 = 2 accepted 1
9001 2 close = 2 accepted 2
9000 4 close = 4 badnumber 2
9000 1 open = 1 badnumber 2
9000 9223372036854775807 close = 9223372036854775807 badnumber 2";

#[test]
fn a_repeat_gets_the_reply_of_the_first_time_and_makes_no_call(
    rt: HostRuntime,
) -> Result<(), Fail> {
    let mut talk = Talk::new(rt.alloc())?;
    talk.rows(&rt, REPEATS)?;
    assert_eq!(rt; talk.node.calls, 2);
    Ok(())
}

/// Eight sessions, and what a ninth port is told until one of them ends.
const NINE: &str = "1 1 open = 1 opened
2 1 open = 1 opened
3 1 open = 1 opened
4 1 open = 1 opened
5 1 open = 1 opened
6 1 open = 1 opened
7 1 open = 1 opened
8 1 open = 1 opened
9 1 open = 1 sessionsfull
9 2 open = 2 badnumber 0
9 1 send 3 00 = 1 nosession
8 2 open = 2 opened
3 2 listen = 2 listening
3 3 close = 3 closed
3 3 close = 3 nosession
9 1 open = 1 opened
3 1 open = 1 sessionsfull
9 2 takeprio = 2 notlistening
9 3 listen = 3 listening
9 4 open = 4 opened
9 5 takeprio = 5 empty";

#[test]
fn a_ninth_port_waits_until_a_session_ends(rt: HostRuntime) -> Result<(), Fail> {
    Talk::new(rt.alloc())?.rows(&rt, NINE)
}

/// So many bytes, all alike.
fn alike(alloc: Global, count: usize) -> Result<Bytes, Fail> {
    Ok(Bytes::from_vec(vec![in alloc; 0xab; count]?))
}

/// A reply of 1,024 bytes of payload.
fn long_reply(alloc: Global, front: &str) -> Result<String, Fail> {
    let mut reply = String::from_str(alloc, front)?;
    for _ in 0..1_024 {
        reply.push_str("ab")?;
    }
    Ok(reply)
}

const LISTENS: &str = "9000 1 open = 1 opened
9000 2 listen = 2 listening";

/// The reply to this request is these words and 1,024 bytes of payload, and the same once more.
fn is_told_twice(
    rt: &(impl Abort + AllocGlobal),
    talk: &mut Talk,
    request: &[u8],
    front: &str,
) -> Result<(), Fail> {
    let reply = long_reply(rt.alloc(), front)?;
    for _ in 0..2 {
        assert_eq!(rt; talk.reply(9000, request)?, reply);
    }
    Ok(())
}

/// The two messages that wait are taken, and then none waits.
fn are_taken_once(rt: &(impl Abort + AllocGlobal), talk: &mut Talk) -> Result<(), Fail> {
    talk.rows(rt, LISTENS)?;
    talk.node.mail = Some(alike(rt.alloc(), 1_024)?);
    talk.node.urgent_mail = Some(alike(rt.alloc(), 1_024)?);
    is_told_twice(rt, talk, b"3 take 3", "3 payload ")?;
    is_told_twice(rt, talk, b"4 takeprio", "4 payload 3 9223372036854775807 ")?;
    talk.rows(rt, "9000 5 take 3 = 5 empty\n9000 6 takeprio = 6 empty")?;
    assert_eq!(rt; talk.node.calls, 4);
    Ok(())
}

#[test]
fn messages_are_taken_once_and_told_again(rt: HostRuntime) -> Result<(), Fail> {
    are_taken_once(&rt, &mut Talk::new(rt.alloc())?)
}
