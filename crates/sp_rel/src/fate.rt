// What comes over flows by their ends.
ghost use Rattle.std.specs.Prelude.{◌≡◌};
ghost use Rattle.sp_rel.specs.Fates.{touches};
ghost use Rattle.sp_rules.specs.Rel.{ending, is_one_of};

use crate::view::is_end;
use sp_base::{Flow, NodeId};
use sp_msg::Effect;
use sp_rules::FlowKind;

/// What comes over flows by their ends.
#[derive(Clone, Copy, Debug)]
pub enum Fate<'a> {
    /// Another life of this node began: its flows are as before their first message.
    Restarted(NodeId),
    /// These nodes are removed: their flows end, but what waits for clients stays.
    Removed(&'a [NodeId]),
}

impl Fate<'_> {
    /// Whether it comes over a flow with these ends.
    pub(crate) fn touches(&self, flow: Flow) -> bool
        ensures { result ≡ touches self.now flow }
    {
        match self {
            Fate::Restarted(node) => is_end(*node, flow),
            Fate::Removed(nodes) => is_one_of(nodes, flow.src) || is_one_of(nodes, flow.dst),
        }
    }
}

/// What is told of a flow of this kind that ends.
pub fn ending(kind: FlowKind, flow: Flow) -> Effect
    ensures { result ≡ ending kind flow }
{
    match kind {
        FlowKind::Plain => Effect::Ended(flow),
        FlowKind::Paths => Effect::Kended(flow),
    }
}

/// Whether the node is one of these.
pub fn is_one_of(nodes: &[NodeId], node: NodeId) -> bool
    ensures { result ≡ is_one_of nodes.now node }
{
    nodes.iter().any(|other| other.0 == node.0)
}
