// The versions of the topology that a node knows: its own, and that of each neighbour as far as it was heard.
use sp_base::{Bytes, Listed, NodeId};
use std::marker::Model;

/// The version of the topology that a node runs under, the weight of each edge in it, 0 where the edge is withdrawn, and the document that says so.
/// A contract sees the same of the rules (`sp_rules`).
#[derive(Debug, Drop)]
pub struct Live {
    pub version: u32,
    pub weights: Listed<u32>,
    pub document: Bytes,
}

impl Model for Live {
    ghost use Rattle.sp_rules.specs.Versions as versions;

    ghost Value = { versions.Live };

    ghost view = { λ l. record { version = l.version; weights = l.weights; document = l.document } };
}

/// The version that is kept of a neighbour: 0 before a frame of it came. A contract sees the same of the rules (`sp_rules`).
#[derive(Clone, Copy, Debug)]
pub struct Heard {
    pub peer: NodeId,
    pub version: u32,
}

impl Model for Heard {
    ghost use Rattle.sp_rules.specs.Versions as versions;

    ghost Value = { versions.Heard };

    ghost view = { λ h. record { peer = h.peer; version = h.version } };

    ghost inverse = { λ h. record { peer = h.peer; version = h.version } };
}
