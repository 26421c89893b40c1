//! The turns of a daemon over any wire, clock, recording and node: what is read, what the node answers, what is recorded and what is sent.
#![tactic(auto)]

mod compared;
mod daemon;
mod ended;
mod indexes;
mod laws;
mod lines;
mod many_turns;
mod node;
mod note;
mod one_turn;
mod opened;
mod parts;
mod peer;
mod poll;
mod restock;
mod served;
mod verified;

pub use compared::{LinesRefused, VerifyRefused};
pub use daemon::Daemon;
pub use ended::Ended;
pub use indexes::Indexes;
pub use laws::{
    key_files_end_late, no_recording_agrees_and_differs, recordings_agree, recordings_are_written,
};
pub use many_turns::serve;
pub use node::Core;
pub use opened::{Ports, open, opening_of};
pub use peer::Peer;
pub use served::Served;
pub use verified::verify;
