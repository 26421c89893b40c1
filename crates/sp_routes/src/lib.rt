//! Which edges an own message takes: all of them, or those of the cheapest paths that share no node, under the weights in effect. What was found is kept
//! while the weights rest.
#![tactic(auto)]

mod book;
mod cheapest;
mod chosen;
mod joined;
mod refused;
mod union;
mod weighed;

pub use book::PathBook;
pub use chosen::mask_to;
pub use refused::NoMask;
