//! A schedule that is run: replayed while it comes, with its journal, or made of a number.
#![tactic(auto)]

mod generated;
mod halt;
mod laws;
mod line;
mod outcome;
mod output;
mod pieces;
mod play;
mod replaying;

pub use generated::generate;
pub use laws::{what_a_forgery_leaves, what_a_replay_had_done, what_a_replay_must_do};
pub use outcome::Outcome;
pub use replaying::replay;
pub use sp_words::Status;
pub use sp_world::World;
