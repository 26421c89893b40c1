//! The weights of links at one node: at most one update of each end of each edge, and for each neighbour the cycle in which they go.
#![tactic(auto)]

mod held;
mod weights;

pub use sp_rules::Offer;
pub use weights::Weights;
