//! A daemon from its configuration to its recording, and the verification of a recording by its configuration.
#![tactic(auto)]

mod configured;
mod daemon;
mod fitting;
mod laws;
mod node_parts;
mod peers;
mod ready;
mod refused;
mod split;
mod starts;
mod verdict;
mod verdict_lines;
mod verifying;

pub use configured::{Configured, configure};
pub use daemon::{serve, start};
pub use fitting::{Fitted, judge};
pub use laws::{daemons_are_runs, no_daemon_signs_again};
pub use refused::SetupRefused;
pub use sp_service_turns::Served;
pub use verdict::{Judged, Verdict};
pub use verifying::verify;
