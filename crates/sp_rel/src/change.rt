// What may happen to a flow at a node.
use sp_base::Bytes;
use sp_msg::Kept;

/// What happened to a flow at a node.
#[derive(Debug, Drop)]
pub enum Change {
    /// Message have + 1 came, and is kept until it is acknowledged.
    Push(Kept),
    /// Message have + 1 was delivered at the destination.
    Receive(Bytes),
    /// An acknowledgement came: what it acknowledges is dropped, and it is kept.
    Acknowledge(Kept),
    /// The destination signed an acknowledgement of all that came, and keeps it.
    Conclude(Kept),
}
