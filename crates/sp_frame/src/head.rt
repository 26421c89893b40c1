// The head of a frame.
use sp_base::NodeId;

/// The head of a frame: who sends it to whom, in which of its lives, and as which of its frames.
#[derive(Clone, Copy, Debug, PartialEq, Eq)]
pub struct Head {
    pub from: NodeId,
    pub to: NodeId,
    /// The sender's boot number.
    pub boot: u64,
    /// The receiver's boot number, as far as the sender knows it.
    pub echo: u64,
    /// The number of the frame among those of this boot to this neighbour.
    pub counter: u64,
    /// The version of the topology that the sender runs under.
    pub topology: u32,
    /// The format of the frame, its third byte.
    pub format: u8,
}
