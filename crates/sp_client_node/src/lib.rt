//! A node as its clients' sessions see it: each command of a client is one step of the node's rules.
#![tactic(auto)]

mod local;

pub use local::LocalNode;
