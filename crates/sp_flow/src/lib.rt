//! What one reliable flow keeps at one node, in rings: the messages that wait for their acknowledgement, or at its destination those that wait for a
//! client, at most so many.
#![tactic(auto)]

mod flow_buf;
mod inbox;

pub use flow_buf::{FlowBuf, FlowBuffer, Full};
pub use inbox::Inbox;
