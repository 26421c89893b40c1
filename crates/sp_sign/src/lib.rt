//! Signatures of nodes: a node signs messages under its own key, and a signature counts exactly where it is valid under the key that the
//! topology has for the message's signer.
#![tactic(auto)]

mod blank;
mod checker;
mod checking;
mod heights;
mod refused;
mod signer;

pub use blank::Blank;
pub use checker::Checker;
pub use checking::{check, check_topology};
pub use heights::param_of;
pub use refused::SignRefused;
pub use signer::NodeSigner;
