//! A node in memory: its parts, its links, its clock and its signer; how a life of it starts, and how it signs its own messages; what a client
//! sends from it, and what the administrator publishes: each call is one step of the overlay's rules, or is refused with its cause and leaves all
//! as it was.
#![tactic(auto)]

mod announce;
mod boot;
mod document;
mod on_paths;
mod priority;
mod reliable;
mod signing;
mod state;
mod weight;

pub use boot::{NodeConfig, can_boot};
pub use document::{NewVersion, Publication};
pub use on_paths::send_krel;
pub use priority::send_prio;
pub use reliable::send_rel;
pub use state::State;
pub use weight::set_weight;
