//! One question of a client: the request goes out once, and the first reply to it is given, or it is told that none came.
#![tactic(auto)]

mod asking;
mod listen;
mod question;
mod refused;

pub use asking::ask;
pub use question::Question;
pub use refused::AskRefused;
