//! The priority part of a node: which messages are new, where they go, what a poll carries, and what leaves.
#![tactic(auto)]

mod field;
mod flight;
mod parcel;
mod peer;
mod place;
mod removed;
mod rows;
mod spare;
mod table;
mod windows;

pub use parcel::Parcel;
pub use sp_rules::{Entry, Neighbour, PrioJudged};
pub use spare::Spare;
pub use table::PrioTable;
