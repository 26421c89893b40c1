//! A daemon's node with the sessions of its clients, as its turns and a verifier ask it: each answer is that of one step of the rules.
#![tactic(auto)]

mod asked;
mod laws;
mod station;

pub use laws::{stations_sign_in_order, turns_are_supplied};
pub use station::Station;
