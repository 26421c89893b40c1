//! Meters of links: what proves that a neighbour received each probe, what each probe cost, and the weight of the link by the last costs. No call
//! takes memory.
#![tactic(auto)]

mod answers;
mod meter;
mod nonces;
mod opening;
mod weight;

pub use answers::{EchoAnswer, ProbeAnswer};
pub use meter::Meter;
pub use opening::{FRAME_COST, MAX_COST, MAX_OPENINGS, Opening};
pub use weight::{WEIGHED_COSTS, weight_of};
