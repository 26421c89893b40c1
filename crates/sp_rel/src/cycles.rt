// The cycles over the flows of a node: which flow a neighbour gets next, and which acknowledgement is due.
ghost use Rattle.std.specs.Prelude.{◌≡◌, Some, map, option_map};
ghost use Rattle.sp_base.specs.Cursor.{next_after};
ghost use Rattle.sp_frame.specs.Writing.{out_report};
ghost use Rattle.sp_msg.specs.declared.body.Body.TheVariants.{Ack as Acked};
ghost use Rattle.sp_rules.specs.Changes.{FitsAFormat};
ghost use Rattle.sp_rules.specs.Rel.{due, flow_at, is_due, plain, served, settled, slot_for, slot_of};

use crate::change::Change;
use crate::changes::flow_said;
use crate::flows::Flows;
use crate::seat::Seat;
use crate::table::RelTable;
use sp_base::{Cursor, Flow, Four, NodeId};
use sp_frame::OutSlot;
use sp_msg::{Ack, Kept};

impl Flows {
    /// The flow that has its row in this place.
    pub fn flow_at(&self, place: usize) -> Option<Flow>
        ensures { result ≡ flow_at self.now.flows place }
    {
        match self.rows.get(place) {
            Some(row) => Some(row.flow()),
            None => None,
        }
    }

    /// The place of the active flow whose turn it is.
    pub fn next(&self, cursor: Cursor) -> Option<usize>
        ensures { result ≡ next_after cursor (map (λ f. f.active) self.now.flows) }
    {
        cursor.next(self.active.as_slice())
    }

    /// The place of the flow whose acknowledgement is due, and whose turn it is.
    pub fn next_due(&self, cursor: Cursor) -> Option<usize>
        ensures { result ≡ next_after cursor (map (is_due self.now.me) self.now.flows) }
    {
        cursor.next(self.due.as_slice())
    }
}

impl RelTable {
    /// What a poll of a neighbour carries. None exactly where no flow is active.
    pub fn slot_for(&self, v: NodeId) -> Option<OutSlot<'_>>
        ensures { option_map out_report result ≡ slot_for self.now v }
    {
        let place = self.flows.next(self.peers.last(v))?;
        let flow = self.flows.flow_at(place)?;
        Some(self.slot_of(v, flow))
    }

    /// The slot of a flow for a neighbour.
    fn slot_of(&self, v: NodeId, flow: Flow) -> OutSlot<'_>
        ensures { out_report result ≡ slot_of self.now v flow }
    {
        let view = self.peers.view(v, flow);
        match self.flows.row(self.flows.place(flow)) {
            Some(row) => {
                let numbers = row.numbers();
                let after = view.have.max(numbers.base);
                OutSlot {
                    flow,
                    sboot: 0,
                    dboot: 0,
                    base: numbers.base,
                    have: numbers.have,
                    ack: if view.base < numbers.base {
                        row.ack()
                    } else {
                        None
                    },
                    rels: if self.flows.me().0 == flow.dst.0 {
                        Four::new()
                    } else {
                        row.messages_after(after)
                    },
                }
            }
            None => OutSlot {
                flow,
                sboot: 0,
                dboot: 0,
                base: 0,
                have: 0,
                ack: None,
                rels: Four::new(),
            },
        }
    }

    /// The flow that `slot_for` gives went to a neighbour. Nothing changes where no flow is active.
    pub fn served(&mut self, v: NodeId)
        ensures { self.new ≡ served self.old v }
    {
        if let Some(place) = self.flows.next(self.peers.last(v)) {
            self.peers.serve(v, place);
        }
    }

    /// The acknowledgement that this node owes as a destination. None exactly where all that came is acknowledged.
    pub fn due(&self) -> Option<Ack>
        ensures { result ≡ due self.now }
    {
        let place = self.flows.next_due(self.signed)?;
        let flow = self.flows.flow_at(place)?;
        let place = self.flows.place(flow);
        Some(Ack {
            src: flow.src,
            dst: flow.dst,
            sboot: 0,
            dboot: 0,
            seq: self.flows.numbers(place).have,
        })
    }

    /// The acknowledgement that was due is signed, and is kept.
    pub fn signed(&mut self, ack: Kept)
        requires due { option_map Acked (due self.old) ≡ Some (plain ack.body) }
        requires fields { FitsAFormat ack.body }
        ensures { self.new ≡ settled self.old ack }
    {
        self.flows.recall();
        if let Some(turn) = self.flows.next_due(self.signed) {
            let flow = flow_said(&ack.body);
            let place = self.flows.place(flow);
            let seat = Seat::none(self.flows.me(), self.flows.bound(), flow);
            self.flows.change(place, Change::Conclude(ack), seat);
            self.signed.moved(turn);
        }
    }
}
