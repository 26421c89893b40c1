// The bytes of a reply. They are written where their memory is taken already.
ghost use Rattle.std.specs.Prelude.{◌≡◌, ◌≤◌, ◌+◌, ◌++◌, ◌∷◌, [], length, map, option_to_list};
ghost use Rattle.std.specs.Fmt.{decimal};
ghost use Rattle.std.specs.List.{flat_map};
ghost use Rattle.arrayvec.specs.ArrayVec.{array_vec_len};
ghost use Rattle.sp_base.specs.declared.limits.TheConstants.{MAX_PAYLOAD_BYTES};
ghost use Rattle.sp_text.specs.Spelling.{hex_word};
ghost use Rattle.sp_client.specs.declared.limits.TheConstants.{MAX_REPLY_BYTES};
ghost use Rattle.sp_client.specs.Replies.{IsShort, after_spaces, answer_name, numbers, payload_words, reply_line};

use crate::{Answer, MAX_REPLY_BYTES};
use arrayvec::ArrayVec;
use itoa::Buffer;
use sp_base::MAX_PAYLOAD_BYTES;

/// A reply in memory of its own, which no call has to take.
pub type Reply = ArrayVec<u8, MAX_REPLY_BYTES>;

/// The reply to the request of this number.
pub fn reply_of(number: u64, answer: &Answer) -> Reply
    requires { IsShort answer.now }
    ensures { result.items ≡ reply_line number answer.now }
{
    let mut reply = Reply::new();
    push(&mut reply, Buffer::new().format(number).as_bytes());
    push_word(&mut reply, name(answer).as_bytes());
    push_numbers(&mut reply, answer);
    push_payload(&mut reply, answer);
    reply
}

/// The first word of an answer.
fn name(answer: &Answer) -> &'static str
    ensures name { result.now ≡ answer_name answer.now }
    ensures short { length result.now ≤ 12 }
{
    match answer {
        Answer::BadRequest => "badrequest",
        Answer::Opened => "opened",
        Answer::SessionsFull => "sessionsfull",
        Answer::NoSession => "nosession",
        Answer::BadNumber { .. } => "badnumber",
        Answer::Listening => "listening",
        Answer::Busy { .. } | Answer::BusyPaths { .. } => "busy",
        Answer::NotListening => "notlistening",
        Answer::Accepted { .. } => "accepted",
        Answer::BadEnd => "badend",
        Answer::Full { .. } => "full",
        Answer::Expired { .. } => "expired",
        Answer::NoPaths { .. } => "nopaths",
        Answer::Low { .. } => "low",
        Answer::Spent { .. } => "spent",
        Answer::NotReserved { .. } => "notreserved",
        Answer::Payload(_) | Answer::Message { .. } => "payload",
        Answer::Empty => "empty",
        Answer::Closed => "closed",
    }
}

/// Appends the numbers of an answer.
fn push_numbers(reply: &mut Reply, answer: &Answer)
    requires { array_vec_len reply.old + 42 ≤ MAX_REPLY_BYTES }
    ensures items { reply.new.items ≡ reply.old.items ++ after_spaces (map decimal (numbers answer.now)) }
    ensures len { array_vec_len reply.new ≤ array_vec_len reply.old + 42 }
{
    let (first, second) = numbers(answer);
    push_number(reply, first);
    push_number(reply, second);
}

/// The numbers of an answer: two at most.
fn numbers(answer: &Answer) -> (Option<u64>, Option<u64>)
    ensures { option_to_list result.0 ++ option_to_list result.1 ≡ numbers answer.now }
{
    match answer {
        Answer::BadNumber { last } => (Some(*last), None),
        Answer::Busy { port } => (Some(u64::from(*port)), None),
        Answer::Accepted { seq } => (Some(*seq), None),
        Answer::Full { base, have } => (Some(*base), Some(*have)),
        Answer::Expired { now } => (Some(*now), None),
        Answer::BusyPaths { paths } => (Some(u64::from(*paths)), None),
        Answer::NoPaths { found } => (Some(u64::from(*found)), None),
        Answer::Low { min } => (Some(u64::from(*min)), None),
        Answer::Spent { index } => (Some(*index), None),
        Answer::NotReserved { bound } => (Some(*bound), None),
        Answer::Message { src, seq, .. } => (Some(u64::from(src.0)), Some(*seq)),
        _ => (None, None),
    }
}

/// Appends a number, where there is one.
fn push_number(reply: &mut Reply, number: Option<u64>)
    requires { array_vec_len reply.old + 21 ≤ MAX_REPLY_BYTES }
    ensures items { reply.new.items ≡ reply.old.items ++ after_spaces (map decimal (option_to_list number)) }
    ensures len { array_vec_len reply.new ≤ array_vec_len reply.old + 21 }
{
    if let Some(number) = number {
        push_word(reply, Buffer::new().format(number).as_bytes());
    }
}

/// Appends the bytes of an answer, where it has any.
fn push_payload(reply: &mut Reply, answer: &Answer)
    requires short { IsShort answer.now }
    requires room { array_vec_len reply.old + 2049 ≤ MAX_REPLY_BYTES }
    ensures { reply.new.items ≡ reply.old.items ++ after_spaces (payload_words answer.now) }
{
    match answer {
        Answer::Payload(payload) | Answer::Message { payload, .. } => {
            push_hex(reply, payload.as_slice());
        }
        _ => {}
    }
}

/// Appends bytes in hexadecimal, a dash for none.
fn push_hex(reply: &mut Reply, bytes: &[u8])
    requires short { length bytes.now ≤ MAX_PAYLOAD_BYTES }
    requires room { array_vec_len reply.old + 2049 ≤ MAX_REPLY_BYTES }
    ensures { reply.new.items ≡ reply.old.items ++ 32 ∷ hex_word bytes.now }
{
    if bytes.is_empty() {
        push_word(reply, b"-");
        return;
    }
    let mut digits = [0; 2 * MAX_PAYLOAD_BYTES];
    let word = &mut digits[..2 * bytes.len()];
    match hex::encode_to_slice(bytes, word) {
        Ok(()) => push_word(reply, word),
        Err(_) => unreachable!(),
    }
}

/// Appends a word after a space.
fn push_word(reply: &mut Reply, word: &[u8])
    requires { array_vec_len reply.old + 1 + length word.now ≤ MAX_REPLY_BYTES }
    ensures items { reply.new.items ≡ reply.old.items ++ 32 ∷ word.now }
    ensures len { array_vec_len reply.new ≡ array_vec_len reply.old + 1 + length word.now }
{
    reply.push(b' ');
    push(reply, word);
}

/// Appends bytes, for which there is room.
fn push(reply: &mut Reply, bytes: &[u8])
    requires { array_vec_len reply.old + length bytes.now ≤ MAX_REPLY_BYTES }
    ensures items { reply.new.items ≡ reply.old.items ++ bytes.now }
    ensures len { array_vec_len reply.new ≡ array_vec_len reply.old + length bytes.now }
{
    match reply.try_extend_from_slice(bytes) {
        Ok(()) => {}
        Err(_) => unreachable!(),
    }
}
