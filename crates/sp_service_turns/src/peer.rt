// A neighbour and where it is met.
use sp_base::NodeId;

/// A neighbour, and the port on which its daemon is.
#[derive(Clone, Copy, Debug, PartialEq, Eq)]
pub struct Peer {
    pub node: NodeId,
    pub port: u16,
}
