//! Reliable messaging of many flows at one node: each flow with its own bounded memory, served in turn on each link, and acknowledged end
//! to end by its destination.
#![tactic(auto)]

mod acks;
mod change;
mod changes;
mod cycles;
mod fate;
mod fates;
mod flows;
mod held;
mod messages;
mod pairs;
mod peers;
mod place;
mod row;
mod seat;
mod table;
mod view;

pub use place::Place;
pub use row::ROW_BYTES;
pub use seat::Seat;
pub use sp_rules::{AckJudged, RelJudged, RelRefused};
pub use table::RelTable;
pub use view::VIEW_BYTES;
