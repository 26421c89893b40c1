// The flow that a slot speaks of: its kind, and where its row stands among the flows of that kind.
ghost use Rattle.std.specs.Prelude.{◌≡◌};
ghost use Rattle.sp_msg.specs.Views.{as_body};
ghost use Rattle.sp_rules.specs.Handle.{ack_item, rel_item};
ghost use Rattle.sp_rules.specs.Kflow.{came_over};

use sp_base::NodeId;
use sp_msg::BodyRef;
use sp_node_parts::Parts;
use sp_rel::Place;
use sp_rules::{AckAnswer, FlowKind, Item, RelAnswer};

/// The flow of a slot: its kind, and the place of its row among the flows of that kind.
#[derive(Clone, Copy, Debug)]
pub(crate) struct Row {
    pub kind: FlowKind,
    pub place: Place,
}

/// The answer to an acknowledgement of a flow of this kind, as an item.
pub(crate) fn ack_item(kind: FlowKind, answer: AckAnswer) -> Item
    ensures { result ≡ ack_item kind answer }
{
    match kind {
        FlowKind::Plain => Item::Ack(answer),
        FlowKind::Paths => Item::Kack(answer),
    }
}

/// The answer to a message of a flow of this kind, as an item.
pub(crate) fn rel_item(kind: FlowKind, answer: RelAnswer) -> Item
    ensures { result ≡ rel_item kind answer }
{
    match kind {
        FlowKind::Plain => Item::Rel(answer),
        FlowKind::Paths => Item::Krel(answer),
    }
}

/// Whether a message of a neighbour came over an edge of its mask. One without a mask may come over each.
pub(crate) fn came_over(parts: &Parts, from: NodeId, body: &BodyRef<'_>) -> bool
    ensures { result ≡ came_over parts.now.kflow from (as_body body.now) }
{
    match body {
        BodyRef::Krel(krel) => parts.kflow.goes_to(from, &krel.mask),
        _ => true,
    }
}
