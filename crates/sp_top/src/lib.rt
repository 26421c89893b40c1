//! The whole program as one call over the outside that it is handed: a schedule goes in, its proved journal comes out.
#![tactic(auto)]

mod command;
mod daemon;
mod key_file;
mod offline;
mod question;
mod told;
mod top;
mod verification;

pub use sp_replay::Outcome;
pub use sp_schedule::{Event, Kind, Scenario};
pub use sp_words::Status;
pub use sp_world::{What, World, WorldRefused};
pub use top::run;
