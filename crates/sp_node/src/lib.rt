//! One node of the overlay, without a network, a clock or a disk: every call of it is one step of the overlay's rules, or is refused with its
//! cause and leaves all as it was.
//!
//! # The order of calls
//! 1. `Node::boot`, with a boot number above that of every life before. The signer has its indexes reserved up to a bound. With epochs the start signs the
//!    boot with the first of them, and its effects tell so.
//! 2. Then, in any order and as often as the caller likes: `tick` with the time, `datagram` with what came from a neighbour's address, `poll` of a
//!    neighbour and then the frame out to it, what clients ask: `send_rel`, `send_prio`, `send_krel`, `set_weight`, `take_rel`, `take_prio`, `take_krel`, and
//!    `replace` with what the administrator publishes: a later version of the topology, which then goes from node to node by itself.
//!
//! # When to call
//! - `poll` a neighbour whenever a frame may go to it, also over an edge that is withdrawn, since documents go there too. A frame is made at each poll, also
//!   where nothing waits: it carries the acknowledged link number, a report, and the boot that the neighbour must echo. So a neighbour that isn't polled hears
//!   nothing, and sends on what it has sent. A poll too many costs a frame and a tag. A frame that is lost is no harm: what it carried goes again until the
//!   neighbour reports it.
//! - `tick` as time goes on. A tick with an earlier time leaves the clock as it is. One tick signs at most one acknowledgement of each kind of flows, plain
//!   ones and those on paths, so a destination of many flows ticks as often as messages come to it. Without ticks nothing expires and nothing is
//!   acknowledged.
//! - `datagram` at once, in the order of arrival. A datagram that comes twice is `Stale` the second time, and changes nothing.
//!
//! # What a caller owes
//! - `Effect::Signed(bytes)` says that an index of the key is used. The index must never come again, whatever stops the process: so indexes are reserved on
//!   a disk first, then `extend` hands them to the signer, and only then may a frame with such a signature leave. `index` and `bound` say how many are left.
//! - `extend(upto)` may only be called once the reservation up to `upto` is on the disk.
//! - `Effect::Delivered` and `DeliveredPrio` are told once, when the message arrives; its payload waits until a client takes it. A full inbox refuses what
//!   comes after it, until somebody takes.
//! - `Stored`, `Gone`, `WeightHeld`, `Version` and `Ended` ask for nothing: they tell what the node keeps. After `Ended` a client of this node that had
//!   messages of the flow on their way sends them again, if it wants them to arrive: another life of the other end began. Where an end is removed none goes
//!   any more.
//! - After `Memory` the node is as before the call, and the call may be made again. After `Worn` the life is over: boot again, with the next number.
//!
//! # What it costs
//! A datagram costs one tag where it is a frame for this node, and a signature check for each object that may be new when its turn comes: `datagram` promises
//! that it is no more. A poll costs one tag, and a send one signature. The first send to a node over so many paths costs one search beside it, and so
//! does the first after a weight in effect changed; the node keeps what it finds until then.
#![tactic(auto)]

mod checker;
mod datagram;
mod met;
mod node;
mod poll;
mod take;
mod tick;

pub use node::Node;
pub use sp_node_state::{NodeConfig, can_boot};
pub use sp_rules::{
    DocumentAnswer, Entry, Item, LinkReply, MAX_CALLS, NodeRefused, Step, Taken, TickReply,
};
