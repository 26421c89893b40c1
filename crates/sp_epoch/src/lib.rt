//! The key states of all nodes of a world, each over a file in memory: over all starts of a node no boot and no index is given twice.
#![tactic(auto)]

mod key_states;
mod laws;
mod refused;
mod row;
mod started;

pub use key_states::KeyStates;
pub use laws::{nothing_is_given_twice, some_calls_are_a_history};
pub use refused::EpochRefused;
pub use started::Started;
