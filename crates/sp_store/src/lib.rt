//! Bounded stores of priority messages: a full one gives up an entry of the source that uses most, and sources are served in turn.
#![tactic(auto)]

mod choice;
mod counted;
mod leaving;
mod places;
mod said;
mod store;

pub use leaving::Leaving;
pub use sp_rules::{Entry, Put};
pub use store::Store;
