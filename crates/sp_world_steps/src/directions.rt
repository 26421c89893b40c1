// All frames of a world by their direction, each found by its number alone.
ghost use Rattle.std.specs.Prelude.{◌≡◌, ◌+◌, ◌<◌, ◌^◌, [], IfOk, None as Nothing, OnErr, OnOk, length, position, option_map};
ghost use Rattle.sp_runs.specs.Forgery.{is_made};
ghost use Rattle.sp_runs.specs.Worlds.{frame_in, frames_in, is_from_to, with_frame};
ghost use Rattle.sp_world_steps.specs.Members.{CanCall};
ghost use Rattle.sp_world_steps.specs.Polls.{IsPolled};

use crate::Member;
use crate::frames::{Direction, add_frame, has_at};
use sp_base::{Bytes, Memory, NodeId, push, push_in_room};
use sp_journal::Entry;
use std::alloc::Global;
use std::marker::Model;

/// The frames of each direction that was polled. A contract sees the list of directions.
#[derive(Debug, Drop)]
pub struct Directions {
    rows: Vec<Direction>,
}

impl Model for Directions {
    ghost use Rattle.std.specs.Prelude.{List};
    ghost use Rattle.sp_runs.specs.Worlds as worlds;

    ghost Value = { List worlds.Direction };

    ghost view = { λ d. d.rows.items };
}

impl Directions {
    /// No frame yet. It takes no memory.
    pub fn new(alloc: Global) -> Directions
        ensures { result ≡ [] }
    {
        Directions {
            rows: Vec::new(alloc),
        }
    }

    /// The frames that `from` made for `to`, each in the place of its number. A place is empty where `from` didn't run when it was polled.
    #[tactic(auto, using(sp_base::proofs::RowLemmas::placed))]
    pub fn frames(&self, from: NodeId, to: NodeId) -> &[Option<Bytes>]
        ensures { result.now ≡ frames_in self.now from to }
    {
        match self.place(from, to) {
            Some(place) => self.rows[place].frames(),
            None => &[],
        }
    }

    /// The frame of a number, counted from 1. None exactly where there is none.
    pub fn frame(&self, from: NodeId, to: NodeId, number: u32) -> Option<&Bytes>
        ensures { option_map (λ f. f.now) result ≡ frame_in self.now from to number }
    {
        if number == 0 {
            return None;
        }
        match self.frames(from, to).get(number as usize - 1) {
            Some(Some(frame)) => Some(frame),
            _ => None,
        }
    }

    /// The node `u` makes its next frame for its neighbour `v`, and it is kept. All room is taken first: after want of memory the nodes and the
    /// frames are as before.
    #[tactic(auto, using(sp_base::proofs::RowLemmas::put_placed, crate::proofs::FrameRows::polled_there, crate::proofs::FrameRows::polled_first))]
    pub fn poll(
        &mut self,
        alloc: Global,
        nodes: &mut Vec<Member>,
        u: NodeId,
        v: NodeId,
    ) -> Result<Entry, Memory>
        requires can { CanCall nodes.old.items u v }
        requires few { length (frames_in self.old u v) + 1 < 2 ^ 32 }
        ensures polled { IfOk result (λ entry. IsPolled nodes.old.items self.old u v entry nodes.new.items self.new) }
        ensures nodes_as_before { OnErr result (nodes.new.items ≡ nodes.old.items) }
        ensures as_before { OnErr result (self.new ≡ self.old) }
    {
        match self.place(u, v) {
            Some(place) => {
                let row = &mut self.rows[place];
                add_frame(alloc, nodes, u, v, &mut row.frames)
            }
            None => {
                self.rows.reserve(1)?;
                let mut frames = Vec::new(alloc);
                let entry = add_frame(alloc, nodes, u, v, &mut frames)?;
                let (from, to) = (u, v);
                push_in_room(&mut self.rows, Direction { from, to, frames });
                Ok(entry)
            }
        }
    }

    /// The node `u` was polled for `v` while it didn't run: the next place of this direction stays empty. Only want of memory refuses, and then
    /// nothing has changed.
    #[tactic(auto, using(sp_base::proofs::RowLemmas::placed, crate::proofs::FrameRows::pushed_there, crate::proofs::FrameRows::pushed_first))]
    pub fn miss(&mut self, alloc: Global, u: NodeId, v: NodeId) -> Result<(), Memory>
        ensures missed { OnOk result (self.new ≡ with_frame self.old u v Nothing) }
        ensures as_before { OnErr result (self.new ≡ self.old) }
    {
        match self.place(u, v) {
            Some(place) => {
                let row = &mut self.rows[place];
                push(&mut row.frames, None)
            }
            None => {
                self.rows.reserve(1)?;
                let mut frames = Vec::new(alloc);
                push(&mut frames, None)?;
                let (from, to) = (u, v);
                push_in_room(&mut self.rows, Direction { from, to, frames });
                Ok(())
            }
        }
    }

    /// Whether the bytes are a frame of this direction. The one of this number is looked at first.
    pub fn has(&self, from: NodeId, to: NodeId, number: u64, bytes: &[u8]) -> bool
        ensures { result ≡ is_made bytes.now (frames_in self.now from to) }
    {
        has_at(self.frames(from, to), number, bytes)
    }

    fn place(&self, from: NodeId, to: NodeId) -> Option<usize>
        ensures { result ≡ position (is_from_to from to) self.now }
    {
        self.rows
            .iter()
            .position(|row| row.from.0 == from.0 && row.to.0 == to.0)
    }
}
