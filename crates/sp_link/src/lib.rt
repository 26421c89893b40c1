//! Links to neighbours: whether a frame is fresh, the head of the next frame, and its tag.
#![tactic(auto)]

mod link;

pub use link::Link;
pub use sp_rules::LinkAnswer;
