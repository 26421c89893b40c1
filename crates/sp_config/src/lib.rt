//! An operator's configuration and an administrator's draft of a topology, read from TOML: the values that they say, or the one key or
//! kind at fault, always the same one.
#![tactic(auto)]

mod config;
mod digits;
mod draft;
mod keys;
mod refusal;
mod refused;
mod steps;
mod unsaid;
mod values;
mod walks;

pub use config::{Config, Peer, read_config};
pub use draft::{Draft, DraftEdge, DraftNode, links_of, read_draft};
pub use refusal::{fault_word, refused_line, too_big_line};
pub use refused::ConfigRefused;
