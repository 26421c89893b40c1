//! What a node is made of: what stays as it is in one of its lives, the version of the topology that it runs under, and its parts in memory.
#![tactic(auto)]

mod fixed;
mod flows;
mod live;
mod parts;
mod succession;
mod withdrawn;

pub use fixed::Fixed;
pub use live::{Heard, Live};
pub use parts::Parts;
pub use succession::succeeds;
pub use withdrawn::Withdrawn;
