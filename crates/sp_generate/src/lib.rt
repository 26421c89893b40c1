//! A realistic overlay from one number: eight nodes of which two are compromised, and 3,975 events, as values and as the text of a schedule.
#![tactic(auto)]

mod happenings;
mod header;
mod laws;
mod schedule;

pub use laws::{generated_are_schedules, generated_have_their_length};
pub use schedule::{Generated, generate, make};
