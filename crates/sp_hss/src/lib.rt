//! Keys that sign up to 2^(2h) messages, each index once: two levels of hash trees with w = 4 (RFC 8554, section 6).
#![tactic(auto)]

mod check;
mod front;
mod laws;
mod refused;
mod seed_key;
mod signer;
mod tree;
mod verifier;

pub use check::verify;
pub use laws::{
    a_test_of_bytes_decides_validity, an_upper_leaf_signs_one_message, no_leaf_signs_two_messages,
    two_indexes_have_two_leaves, two_leaves_make_a_signature, what_a_seed_signs_is_valid,
};
pub use refused::HssRefused;
pub use seed_key::{SeedKey, public_key};
pub use signer::Signer;
pub use sp_lms::LmsParam;
pub use tree::Tree;
pub use verifier::Verifier;
