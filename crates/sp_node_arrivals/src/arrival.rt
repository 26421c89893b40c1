// Where the objects of a frame come to.
use sp_base::NodeId;
use sp_node_parts::Fixed;

/// The node that a frame comes to, when, from which neighbour, and whether another life of that one began: whether its boot, as it is known, rises.
#[derive(Clone, Copy, Debug)]
pub struct Arrival<'a> {
    pub fixed: &'a Fixed,
    pub time: u64,
    pub from: NodeId,
    pub risen: bool,
}
