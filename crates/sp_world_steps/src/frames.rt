// The frames of one direction.
ghost use Rattle.std.specs.Prelude.{◌≡◌, ◌+◌, ◌<◌, ◌^◌, true, IsTrue, IfOk, OnErr, length};
ghost use Rattle.sp_runs.specs.Forgery.{is_frame, is_made};
ghost use Rattle.sp_world_steps.specs.Members.{CanCall};
ghost use Rattle.sp_world_steps.specs.Polls.{IsFramed};

use crate::Member;
use crate::entries::frame;
use crate::members::poll;
use sp_base::{Bytes, Memory, NodeId, push_in_room};
use sp_journal::Entry;
use std::alloc::Global;
use std::marker::Model;

/// The frames that one node made for another, in the order of their numbers. A place is empty where the node didn't run when it was polled.
#[derive(Debug, Drop)]
pub struct Direction {
    pub from: NodeId,
    pub to: NodeId,
    pub frames: Vec<Option<Bytes>>,
}

impl Model for Direction {
    ghost use Rattle.sp_runs.specs.Worlds as worlds;

    ghost Value = { worlds.Direction };

    ghost view = { λ d. record { from = d.from; to = d.to; frames = d.frames.items } };
}

impl Direction {
    pub fn frames(&self) -> &[Option<Bytes>]
        ensures { result.now ≡ self.now.frames }
    {
        self.frames.as_slice()
    }
}

/// The node `u` makes its next frame for `v`, and it is kept behind those that it made. The room for it is taken first: so where there is none, the
/// node is as before.
#[tactic(auto, using(crate::proofs::FrameRows::is_framed))]
pub fn add_frame(
    alloc: Global,
    nodes: &mut Vec<Member>,
    u: NodeId,
    v: NodeId,
    frames: &mut Vec<Option<Bytes>>,
) -> Result<Entry, Memory>
    requires can { CanCall nodes.old.items u v }
    requires few { length frames.old.items + 1 < 2 ^ 32 }
    ensures framed { IfOk result (λ entry. IsFramed nodes.old.items u v frames.old.items entry nodes.new.items frames.new.items) }
    ensures frames { OnErr result (frames.new.items ≡ frames.old.items) }
    ensures nodes { OnErr result (nodes.new.items ≡ nodes.old.items) }
{
    frames.reserve(1)?;
    let number = frames.len() as u32 + 1;
    let bytes = poll(alloc, nodes, u, v)?;
    let entry = frame(alloc, number, bytes.as_slice());
    push_in_room(frames, Some(bytes));
    Ok(entry)
}

/// Whether the bytes are one of these frames. The one of this number, counted from 1, is looked at first.
pub fn has_at(frames: &[Option<Bytes>], number: u64, bytes: &[u8]) -> bool
    ensures { result ≡ is_made bytes.now frames.now }
{
    if is_at(frames, number, bytes) {
        return true;
    }
    frames.iter().any(|frame| is_frame(frame, bytes))
}

/// Whether the frame of this number is this one. Then it is among them.
fn is_at(frames: &[Option<Bytes>], number: u64, bytes: &[u8]) -> bool
    ensures { IsTrue result → is_made bytes.now frames.now ≡ true }
{
    if number == 0 || number > frames.len() as u64 {
        return false;
    }
    is_frame(&frames[number as usize - 1], bytes)
}

/// Whether the bytes are in this place.
fn is_frame(place: &Option<Bytes>, bytes: &[u8]) -> bool
    ensures { result ≡ is_frame bytes.now place.now }
{
    match place {
        Some(frame) => frame.as_slice() == bytes,
        None => false,
    }
}
