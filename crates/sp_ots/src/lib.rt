//! One-time signatures that rest on SHA-256 alone: LM-OTS (RFC 8554, section 4), made and checked without memory; and SHA-256 of four messages
//! at once (FIPS 180-4), with which their chains are run.
//!
//! A seed gives one key pair for each leaf q of a tree with the id I, and a pair may sign one message only.
#![tactic(auto)]

mod block;
mod chains;
mod check;
mod constants;
mod digits;
mod hashes;
mod keys;
mod lanes;
mod leaves;
mod long;
mod message;
mod param;
mod refused;
mod rounds;
mod schedule;
mod signing;
mod two_keys;
mod two_leaves;
mod words;

pub use block::hash_blocks;
pub use chains::{run_chains, run_chains_one_by_one};
pub use check::candidate;
pub use hashes::begun;
pub use keys::{private_starts, private_starts_one_by_one, public};
pub use leaves::publics;
pub use long::prefix_digests;
pub use message::digests;
pub use param::{OtsParam, sig_len};
pub use refused::OtsRefused;
pub use signing::sign;
pub use two_keys::{Claim, candidates};
pub use words::LANES;
