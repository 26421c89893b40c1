//! Reliable flows on K paths at one node: a thin layer over a table of reliable flows, whose messages go only over the edges of a mask.
#![tactic(auto)]

mod sends;
mod table;
mod turns;

pub use sp_rel::Seat;
pub use sp_rules::{FlowKind, KRoom};
pub use table::KTable;
