// Whose turn it is towards a neighbour: a slot has at most one message on paths, and only where the edge is in its mask.
ghost use Rattle.std.specs.Prelude.{◌≡◌, map, option_map, position};
ghost use Rattle.sp_frame.specs.Writing.{out_report};
ghost use Rattle.sp_msg.specs.Masks.{bits};
ghost use Rattle.sp_msg.specs.Views.{names_edge};
ghost use Rattle.sp_rules.specs.Kflow.{edge_to, first_over, goes_over, is_neighbour, over_edge, slot_for};

use crate::table::KTable;
use sp_base::{EdgeId, Four, NodeId};
use sp_frame::OutSlot;
use sp_msg::{Body, Kept, Mask, mask_has};
use sp_rules::Neighbour;

impl KTable {
    /// What a poll of a neighbour carries: at most one message, where it may go over the edge to it. None exactly where no flow is active.
    pub fn slot_for(&self, v: NodeId) -> Option<OutSlot<'_>>
        ensures { option_map out_report result ≡ slot_for self.now v }
    {
        let slot = self.flows.slot_for(v)?;
        Some(over_edge(slot, self.edge_to(v)))
    }

    /// Whether the edge to a neighbour is in a mask.
    pub fn goes_to(&self, v: NodeId, mask: &Mask) -> bool
        ensures { result ≡ names_edge (bits mask.now) (edge_to self.now v) }
    {
        mask_has(mask, self.edge_to(v))
    }

    /// The edge to a neighbour.
    #[tactic(auto, using(sp_base::proofs::RowLemmas::placed))]
    fn edge_to(&self, v: NodeId) -> EdgeId
        ensures { result.0 ≡ edge_to self.now v }
    {
        match neighbour_place(self.edges.as_slice(), v) {
            Some(place) => self.edges[place].edge,
            None => EdgeId(256),
        }
    }
}

/// Where a neighbour stands among all.
fn neighbour_place(neighbours: &[Neighbour], v: NodeId) -> Option<usize>
    ensures { result ≡ position (is_neighbour v) neighbours.now }
{
    neighbours
        .iter()
        .position(|neighbour| neighbour.id.0 == v.0)
}

/// The slot with its first message alone, where that may go over an edge.
fn over_edge(slot: OutSlot<'_>, edge: EdgeId) -> OutSlot<'_>
    ensures { out_report result ≡ over_edge edge.0 (out_report slot.entry) }
{
    OutSlot {
        rels: first_over(slot.rels, edge),
        ..slot
    }
}

/// The first of these messages, where it may go over an edge.
fn first_over(messages: Four<&Kept>, edge: EdgeId) -> Four<&Kept>
    ensures { map (λ o. o.now) result ≡ first_over edge.0 (map (λ o. o.now) messages.entry) }
{
    match messages.split() {
        Some((first, _)) if goes_over(&first.body, edge) => Four::new().with(first),
        _ => Four::new(),
    }
}

/// Whether a message may go over an edge. One without a mask goes over each.
fn goes_over(body: &Body, edge: EdgeId) -> bool
    ensures { result ≡ goes_over edge.0 body.now }
{
    match body {
        Body::Krel(krel) => mask_has(&krel.mask, edge),
        _ => true,
    }
}
