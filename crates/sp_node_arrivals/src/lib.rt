//! The objects of a fresh frame at a node: each that may be new is judged, its signature looked at, and copied, before anything changes; then
//! each is taken in the order of the rules.
//!
//! Each kind of object is a file: how it is judged, made ready, taken and answered. `arriving` goes through the kinds in their order.
#![tactic(auto)]

mod ack;
mod arrival;
mod arriving;
mod epoch;
mod greeting;
mod prio;
mod rel;
mod row;
mod signed;
mod slot;
mod weight;

pub use arrival::Arrival;
pub use arriving::{Arrived, arrive};
pub use greeting::greet;
