//! Trees of one-time keys that rest on SHA-256 alone: LMS (RFC 8554, section 5). A key of height h signs 2^h messages.
#![tactic(auto)]

mod both;
mod bytes;
mod grow;
mod growing;
mod hashes;
mod key;
mod laws;
mod param;
mod path;
mod public_key;
mod refused;

pub use both::{Claim, verify_both};
pub use bytes::u32_at;
pub use growing::GrowingKey;
pub use key::LmsKey;
pub use laws::what_a_seed_signs_is_valid;
pub use param::{LmsParam, sig_len};
pub use public_key::{PublicKey, verify};
pub use refused::LmsRefused;
