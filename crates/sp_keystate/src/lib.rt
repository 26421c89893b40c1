//! The indexes of a signing seed that are reserved, and how often the daemon was started, kept in a small file over any crash: no write
//! at which the machine stops takes either number back.
#![tactic(auto)]

mod change;
mod key_state;
mod numbers;
mod opening;
mod reading;
mod refused;
mod refused_line;
mod slot;
mod starts;

pub use key_state::KeyState;
pub use opening::{format, open};
pub use refused::KeyRefused;
pub use refused_line::line_of;
pub use starts::{LEAST_LEFT, RESERVED, Started, start};
