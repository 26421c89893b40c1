//! The words of the command line, read by `clap`: a command with its values, or that they are none; and the status with which the program ends. Those of
//! the auditor stand beside them.
#![tactic(auto)]

mod audit_given;
mod audit_line;
mod audit_path;
mod audit_reading;
mod audit_status;
mod audit_values;
mod command_line;
mod given;
mod reading;
mod refused;
mod status;
mod values;

pub use audit_line::{AuditLine, RoundsQuery};
pub use audit_reading::parse_audit;
pub use audit_status::AuditStatus;
pub use command_line::{Ask, CommandLine, PathsQuery};
pub use reading::parse;
pub use refused::WordsRefused;
pub use status::Status;
