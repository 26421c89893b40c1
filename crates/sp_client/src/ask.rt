// One call of the local for a command, and its answer as a client is told it.
ghost use Rattle.std.specs.Prelude.{◌≡◌, IfOk, OnErr, true};
ghost use Rattle.std.specs.Result.{result_ok};
ghost use Rattle.sp_client.specs.Locals.{message, sent, took, took_prio};
ghost use Rattle.sp_client.specs.Replies.{IsShort};
ghost use Rattle.sp_client.specs.Requests.{IsCommand};
ghost use Rattle.sp_client.specs.Sessions.{is_local};

use crate::{Answer, BadEnd, Command, Local, SendRefused};
use sp_base::{Bytes, Memory};
use sp_msg::Body;
use sp_rules::{Entry, KSend, PrioSend};
use std::alloc::Global;

/// Has the local do a command, by one call. After `Memory` it is as before.
pub fn ask<L: Local>(local: &mut L, alloc: Global, command: &Command) -> Result<Answer, Memory>
    requires local { is_local command.now ≡ true }
    requires range { IsCommand command.now }
    ensures step { IfOk result (λ answer. L.steps local.old command.now answer local.new) }
    ensures size { IfOk result IsShort }
    ensures memory { OnErr result (local.new ≡ local.old) }
{
    match command {
        Command::Take { from } => Ok(took(local.take_rel(*from))),
        Command::TakePrio => Ok(took_prio(local.take_prio())),
        Command::TakeKrel { from } => Ok(took(local.take_krel(*from))),
        Command::Send { to, payload } => sent(local.send_rel(alloc, *to, payload.as_slice())),
        Command::SendPrio {
            to,
            prio,
            expiry,
            paths,
            payload,
        } => {
            let message = PrioSend {
                dst: *to,
                prio: *prio,
                expiry: *expiry,
                paths: *paths,
                payload: payload.as_slice(),
            };
            sent(local.send_prio(alloc, &message))
        }
        Command::SendKrel { to, paths, payload } => {
            let message = KSend {
                dst: *to,
                paths: *paths,
                payload: payload.as_slice(),
            };
            sent(local.send_krel(alloc, &message))
        }
        Command::Weight { peer, weight } => sent(local.set_weight(alloc, *peer, *weight)),
        _ => unreachable!(),
    }
}

/// What a client is told of a send or a weight.
fn sent(call: Result<u64, SendRefused>) -> Result<Answer, Memory>
    ensures answer { result_ok result ≡ sent call }
    ensures size { IfOk result IsShort }
{
    match call {
        Ok(seq) => Ok(Answer::Accepted { seq }),
        Err(SendRefused::BadEnd) => Ok(Answer::BadEnd),
        Err(SendRefused::Full { base, have }) => Ok(Answer::Full { base, have }),
        Err(SendRefused::Busy { paths }) => Ok(Answer::BusyPaths { paths }),
        Err(SendRefused::Expired { now }) => Ok(Answer::Expired { now }),
        Err(SendRefused::NoPaths { found }) => Ok(Answer::NoPaths { found }),
        Err(SendRefused::Low { min }) => Ok(Answer::Low { min }),
        Err(SendRefused::Spent { index }) => Ok(Answer::Spent { index }),
        Err(SendRefused::NotReserved { bound }) => Ok(Answer::NotReserved { bound }),
        Err(SendRefused::Memory) => Err(Memory),
    }
}

/// What a client is told of the oldest reliable message of either kind.
fn took(taken: Result<Option<Bytes>, BadEnd>) -> Answer
    ensures { result ≡ took taken }
{
    match taken {
        Ok(Some(payload)) => Answer::Payload(payload),
        Ok(None) => Answer::Empty,
        Err(BadEnd) => Answer::BadEnd,
    }
}

/// What a client is told of the oldest priority message.
fn took_prio(taken: Option<Entry>) -> Answer
    ensures { result ≡ took_prio taken }
{
    match taken {
        Some(entry) => message(entry.kept.body),
        None => Answer::Empty,
    }
}

fn message(body: Body) -> Answer
    ensures { result ≡ message body }
{
    match body {
        Body::Prio(prio) => Answer::Message {
            src: prio.src,
            seq: prio.seq,
            payload: prio.payload,
        },
        _ => Answer::Empty,
    }
}
