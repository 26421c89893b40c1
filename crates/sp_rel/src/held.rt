// Where the messages of a flow lie at a node.
use sp_flow::{FlowBuf, Inbox};

/// The memory of a flow at a node.
#[derive(Debug, Drop)]
pub(crate) enum Held {
    /// The flow isn't active here.
    Idle,
    /// Messages wait here for their acknowledgement.
    Relay(FlowBuf),
    /// This node is the destination: messages wait here for its clients.
    End(Inbox),
}
