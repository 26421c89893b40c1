//! Duplicate windows: each number of a source is new at most once, and no call takes memory or searches.
#![tactic(auto)]

mod window;

pub use window::Window;
