//! What compromised nodes make: the keys of a scenario, messages and documents signed with any of them, frames under a right tag, and frames with a bit
//! changed. The administrator is here too, who signs each version of the topology.
#![tactic(auto)]

mod boots;
mod crafters;
mod documents;
mod flips;
mod frames;
mod keys;
mod laws;

pub use boots::{EndBoots, dated, ends_of};
pub use crafters::{Crafted, Crafters};
pub use documents::Administrator;
pub use flips::flipped;
pub use frames::{crafted_head, document_frame, object_frame, status_frame};
pub use keys::{edge_between, edge_key, node_seed, signature_len, signer_of};
pub use laws::crafting_signers_follow_a_run;
