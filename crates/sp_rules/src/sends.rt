// What a client asks a node to send with priority.
use sp_base::NodeId;

/// A priority message of a client: to whom, how urgent (1 to 10, and 10 goes first), until when, and over how many paths that share no node, where 0
/// means all edges.
#[derive(Clone, Copy, Debug)]
pub struct PrioSend<'a> {
    pub dst: NodeId,
    pub prio: u8,
    pub expiry: u64,
    pub paths: u8,
    pub payload: &'a [u8],
}
