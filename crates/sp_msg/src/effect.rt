// What an event caused at a node, in its order, in a list that had its room before the event.
ghost use Rattle.std.specs.Prelude.{◌≡◌, ◌-◌, ◌<◌, ◌++◌, [], ◌∷◌, IfErr, IfOk, IsOk};

use crate::MsgRefused;
use sp_base::{Bytes, EdgeId, Flow, Memory, NodeId, push_in_room};
use std::alloc::Global;
use std::marker::Model;

/// One thing that an event caused.
#[derive(Debug, Drop)]
pub enum Effect {
    /// The node signed these bytes.
    Signed(Bytes),
    /// A priority message went into the store of this place, under this id.
    Stored {
        place: u8,
        id: u64,
        src: NodeId,
        seq: u64,
        prio: u8,
    },
    /// The entry of this id left the store of this place.
    Gone {
        place: u8,
        id: u64,
        why: Why,
    },
    /// A reliable message was delivered to the clients of its destination.
    Delivered {
        src: NodeId,
        seq: u64,
        payload: Bytes,
    },
    /// A priority message was delivered to the clients of its destination.
    DeliveredPrio {
        src: NodeId,
        seq: u64,
        payload: Bytes,
    },
    /// A reliable message on paths was delivered to the clients of its destination.
    DeliveredKrel {
        src: NodeId,
        seq: u64,
        payload: Bytes,
    },
    /// From now on the node holds this weight, as its origin said it.
    WeightHeld {
        origin: NodeId,
        edge: EdgeId,
        seq: u64,
        weight: u32,
    },
    /// This flow was active and isn't any more: another life of one of its ends began, or one of them is removed.
    Ended(Flow),
    /// The same of a flow on paths.
    Kended(Flow),
    /// From now on the node runs under this version of the topology.
    Version {
        version: u32,
    },
}

/// Why an entry left a store.
#[derive(Clone, Copy, Debug, PartialEq, Eq)]
pub enum Why {
    /// A new entry took its room.
    Evicted,
    /// Its expiry passed.
    Expired,
    /// The neighbour has it.
    Acked,
    /// A client took it.
    Taken,
    /// The edge to the neighbour is withdrawn, or an end of the message is removed.
    Withdrawn,
}

/// The effects so far, with room for more. A push takes no memory: all of it was taken at the start.
#[derive(Debug, Drop)]
pub struct Effects {
    list: Vec<Effect>,
    room: usize,
}

impl Model for Effects {
    ghost use Rattle.std.specs.Prelude.{◌+◌, ◌≤◌, vec_capacity, vec_len};
    ghost use Rattle.sp_msg.specs.Caused.{Caused};

    ghost Value = { Caused };

    ghost view = { λ e. record { list = e.list.items; room = e.room } };

    ghost invariant = { λ e. vec_len e.list + e.room ≤ vec_capacity e.list };
}

impl Effects {
    /// No effects, with room for `n`. It is refused for want of memory alone, and takes none where n is 0.
    pub fn with_room(alloc: Global, n: usize) -> Result<Effects, MsgRefused>
        ensures empty { IfOk result (λ effects. effects ≡ record { list = []; room = n }) }
        ensures none { n ≡ 0 → IsOk result }
        ensures memory { IfErr result (λ e. e ≡ MsgRefused.Memory) }
    {
        Ok(Effects {
            list: Vec::with_capacity(alloc, n).map_err(Memory::from)?,
            room: n,
        })
    }

    /// How many more have room.
    pub fn room(&self) -> usize
        ensures { result ≡ self.now.room }
    {
        self.room
    }

    /// Appends an effect and uses one of the room. It takes no memory.
    pub fn push(&mut self, effect: Effect)
        requires { 0 < self.old.room }
        ensures { self.new ≡ record { list = self.old.list ++ effect ∷ []; room = self.old.room - 1 } }
    {
        push_in_room(&mut self.list, effect);
        self.room -= 1;
    }

    /// The effects so far.
    pub fn as_slice(&self) -> &[Effect]
        ensures { result.now ≡ self.now.list }
    {
        self.list.as_slice()
    }

    /// The vector of the effects. It takes no memory.
    pub fn into_vec(self) -> Vec<Effect>
        ensures { result.items ≡ self.list }
    {
        let Effects { list, .. } = self;
        list
    }
}
