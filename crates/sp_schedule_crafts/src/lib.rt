//! The message that a compromised node puts into a frame which it crafts: its words in a line, read, written and copied.
#![tactic(auto)]

mod copying;
mod form;
mod object;
mod reading;
mod writing;

pub use copying::copy_object;
pub use form::ObjectForm;
pub use object::{CraftedAck, CraftedKrel, CraftedObject, CraftedPrio, CraftedRel};
pub use reading::{object_form, read_object};
pub use writing::push_object;
