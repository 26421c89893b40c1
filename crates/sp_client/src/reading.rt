// A datagram read as a request. What isn't a request of the table is none.
ghost use Rattle.std.specs.Prelude.{ℕ, ◌≡◌, ◌≢◌, ◌≤◌, List, [], ◌∷◌, IfOk, codes, length, map};
ghost use Rattle.std.specs.Fmt.{decimal};
ghost use Rattle.sp_base.specs.Finds.{Finds};
ghost use Rattle.sp_text.specs.Spelling.{hex_word};
ghost use Rattle.sp_client.specs.Requests.{IsInRange, IsNamed, IsPayload, IsRequest, RequestsHaveTheirOwnLine, SpelledRequestsAreRead, request_words};

use crate::{Command, MAX_PATHS, MAX_REQUEST_BYTES, MAX_REQUEST_NUMBER, Request};
use sp_base::{Bytes, MAX_PAYLOAD_BYTES, MAX_PRIORITY, MAX_WEIGHT, Memory};
use sp_text::{hex_word_bytes, is_word, node_in, number, number_in, split_at_spaces};
use std::alloc::Global;

/// The request that a datagram is. None exactly where it is none of the table: then no session is touched.
pub fn read_request(alloc: Global, bytes: &[u8]) -> Result<Option<Request>, Memory>
    ensures { IfOk result (Finds (IsRequest bytes.now)) }
{
    if bytes.len() > MAX_REQUEST_BYTES {
        return Ok(None);
    }
    let words = split_at_spaces(alloc, bytes)?;
    request_of(alloc, words.as_slice())
}

/// The request of these words.
fn request_of(alloc: Global, words: &[&[u8]]) -> Result<Option<Request>, Memory>
    ensures { IfOk result (Finds (λ r. IsInRange r × (map (λ w. w.now) words.now ≡ request_words r))) }
{
    let [number, name, fields @ ..] = words else {
        return Ok(None);
    };
    let Some(number) = number_in(number, 1, MAX_REQUEST_NUMBER) else {
        return Ok(None);
    };
    match command(alloc, name, fields)? {
        Some(command) => Ok(Some(Request { number, command })),
        None => Ok(None),
    }
}

/// The command of this name with these fields.
fn command(alloc: Global, name: &[u8], fields: &[&[u8]]) -> Result<Option<Command>, Memory>
    ensures { IfOk result (Finds (IsNamed name.now (map (λ w. w.now) fields.now))) }
{
    match fields {
        [] => Ok(bare(name)),
        [from] => Ok(take(name, from)),
        [node, value] if is_word(name, b"send") => send(alloc, name, node, value),
        [node, value] => Ok(weight(name, node, value)),
        [to, paths, payload] => send_krel(alloc, name, to, paths, payload),
        [to, prio, expiry, paths, payload] => {
            send_prio(alloc, name, to, prio, expiry, paths, payload)
        }
        _ => Ok(None),
    }
}

/// The command of this name that has no field.
fn bare(name: &[u8]) -> Option<Command>
    ensures { Finds (IsNamed name.now []) result }
{
    if is_word(name, b"open") {
        return Some(Command::Open);
    }
    if is_word(name, b"listen") {
        return Some(Command::Listen);
    }
    if is_word(name, b"takeprio") {
        return Some(Command::TakePrio);
    }
    if is_word(name, b"close") {
        return Some(Command::Close);
    }
    None
}

/// `take S` or `ktake S`.
fn take(name: &[u8], from: &[u8]) -> Option<Command>
    ensures { Finds (IsNamed name.now (from.now ∷ [])) result }
{
    if is_word(name, b"take") {
        let from = node_in(from, 0, u8::MAX)?;
        return Some(Command::Take { from });
    }
    if is_word(name, b"ktake") {
        let from = node_in(from, 0, u8::MAX)?;
        return Some(Command::TakeKrel { from });
    }
    None
}

/// `weight V W`.
fn weight(name: &[u8], peer: &[u8], weight: &[u8]) -> Option<Command>
    ensures { name.now ≢ codes "send" → Finds (IsNamed name.now (peer.now ∷ weight.now ∷ [])) result }
{
    if !is_word(name, b"weight") {
        return None;
    }
    let peer = node_in(peer, 0, u8::MAX)?;
    let weight = number_in(weight, 1, u64::from(MAX_WEIGHT))? as u32;
    Some(Command::Weight { peer, weight })
}

/// `send D HEX`.
fn send(alloc: Global, name: &[u8], to: &[u8], payload: &[u8]) -> Result<Option<Command>, Memory>
    requires { name.now ≡ codes "send" }
    ensures { IfOk result (Finds (IsNamed name.now (to.now ∷ payload.now ∷ []))) }
{
    let Some(to) = node_in(to, 0, u8::MAX) else {
        return Ok(None);
    };
    match payload_of(alloc, payload)? {
        Some(payload) => Ok(Some(Command::Send { to, payload })),
        None => Ok(None),
    }
}

/// `sendprio D P EXPIRY N HEX`.
fn send_prio(
    alloc: Global,
    name: &[u8],
    to: &[u8],
    prio: &[u8],
    expiry: &[u8],
    paths: &[u8],
    payload: &[u8],
) -> Result<Option<Command>, Memory>
    ensures { IfOk result (Finds (IsNamed name.now (to.now ∷ prio.now ∷ expiry.now ∷ paths.now ∷ payload.now ∷ []))) }
{
    if !is_word(name, b"sendprio") {
        return Ok(None);
    }
    let Some(to) = node_in(to, 0, u8::MAX) else {
        return Ok(None);
    };
    let Some(prio) = number_in(prio, 1, u64::from(MAX_PRIORITY)) else {
        return Ok(None);
    };
    let Some(expiry) = number(expiry) else {
        return Ok(None);
    };
    let Some(paths) = number_in(paths, 0, u64::from(MAX_PATHS)) else {
        return Ok(None);
    };
    match payload_of(alloc, payload)? {
        Some(payload) => Ok(Some(Command::SendPrio {
            to,
            prio: prio as u8,
            expiry,
            paths: paths as u8,
            payload,
        })),
        None => Ok(None),
    }
}

/// `ksend D K HEX`.
fn send_krel(
    alloc: Global,
    name: &[u8],
    to: &[u8],
    paths: &[u8],
    payload: &[u8],
) -> Result<Option<Command>, Memory>
    ensures { IfOk result (Finds (IsNamed name.now (to.now ∷ paths.now ∷ payload.now ∷ []))) }
{
    if !is_word(name, b"ksend") {
        return Ok(None);
    }
    let Some(to) = node_in(to, 0, u8::MAX) else {
        return Ok(None);
    };
    let Some(paths) = number_in(paths, 1, u64::from(MAX_PATHS)) else {
        return Ok(None);
    };
    match payload_of(alloc, payload)? {
        Some(payload) => Ok(Some(Command::SendKrel {
            to,
            paths: paths as u8,
            payload,
        })),
        None => Ok(None),
    }
}

/// The bytes of a word. They are decoded only where they aren't too many.
fn payload_of(alloc: Global, word: &[u8]) -> Result<Option<Bytes>, Memory>
    ensures { IfOk result (Finds (λ payload. IsPayload payload × (word.now ≡ hex_word payload))) }
{
    if word.len() > 2 * MAX_PAYLOAD_BYTES {
        return Ok(None);
    }
    hex_word_bytes(alloc, word)
}

/// A law: each request in its ranges is read from its line, and no line is of two requests.
pub fn requests_have_one_line()
    ensures read { SpelledRequestsAreRead }
    ensures own { RequestsHaveTheirOwnLine }
{}
