// What a node knows of the lives of another: what this one said of its last start, and what the node says of what comes.
use sp_base::NodeId;
use sp_msg::Kept;

/// A node, and the Epoch object of its last start that came here. None where none came.
#[derive(Debug, Drop)]
pub struct Life {
    pub node: NodeId,
    pub object: Option<Kept>,
}

/// What a node says of an Epoch object, but for its signature: the first that fits.
#[derive(Clone, Copy, Debug, PartialEq, Eq)]
pub enum EpochJudged {
    /// Its origin isn't another node. A fault or an attack.
    BadEnd,
    /// The boot that is held of its origin is at least this one. Normal where these objects go round.
    Old,
    New,
}
