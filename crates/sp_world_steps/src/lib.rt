//! The correct nodes of a run among one another, and the frames that they made: each call of one of them, with the entry that tells it in a journal.
//!
//! A call that is refused for want of memory leaves all nodes and all frames as they were.
#![tactic(auto)]

mod calls;
mod directions;
mod entries;
mod frames;
mod member;
mod members;

pub use directions::Directions;
pub use entries::arrived;
pub use member::Member;
pub use members::{ask, forget, hear, is_running, member_of, reserve};
