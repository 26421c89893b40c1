// What becomes of a flow: the memory that a change needs, a message of a client, a report, and what a client takes.
ghost use Rattle.std.specs.Prelude.{◌≡◌, IfErr, IfOk, slice_get};
ghost use Rattle.sp_rel.specs.Changes.{CanChange, changed};
ghost use Rattle.sp_rel.specs.Places.{IsPlace};
ghost use Rattle.sp_rel.specs.Rows as rows;
ghost use Rattle.sp_rel.specs.Seated.{IsSeated, seat_for};
ghost use Rattle.sp_rel.specs.Tables.{put_in};
ghost use Rattle.sp_rules.specs.Changes.{FitsAFormat};
ghost use Rattle.sp_rules.specs.Flow.{after_take, flow_said};
ghost use Rattle.sp_rules.specs.Rel.{IsNextOwn, flow_in, oldest, pushed_in, reported, took};

use crate::change::Change;
use crate::flows::Flows;
use crate::place::Place;
use crate::seat::Seat;
use crate::table::RelTable;
use sp_base::{Bytes, Flow, NodeId};
use sp_msg::{Body, Kept};
use sp_rules::RelRefused;
use std::alloc::Global;

impl Flows {
    /// What happened to the flow of this place. Where it wasn't active, it is from now on, with the memory of the seat.
    pub fn change(&mut self, place: Place, change: Change, seat: Seat)
        requires place { IsPlace self.old.flows place }
        requires can { CanChange self.old.me self.old.bound (flow_in self.old.flows place.flow) change }
        requires seat { rows.IsSeated self.old.me self.old.bound (flow_in self.old.flows place.flow) seat }
        ensures changed { self.new ≡ put_in self.old place.flow (changed change (flow_in self.old.flows place.flow)) }
        ensures place { IsPlace self.new.flows place }
    {
        if let Some(at) = place.at {
            let row = &mut self.rows[at];
            row.change(change, seat);
            self.active[at] = row.is_active();
            self.due[at] = row.is_due();
        }
    }

    /// The oldest message of the inbox of the flow of this place, which leaves it.
    pub fn take(&mut self, place: Place) -> Option<Bytes>
        requires place { IsPlace self.old.flows place }
        ensures taken { result ≡ slice_get (flow_in self.old.flows place.flow).inbox 0 }
        ensures rest { self.new ≡ put_in self.old place.flow (after_take (flow_in self.old.flows place.flow)) }
    {
        match place.at {
            Some(at) => {
                let row = &mut self.rows[at];
                row.take()
            }
            None => None,
        }
    }
}

impl RelTable {
    /// The memory of a flow where it isn't active here, and none where it is. It is refused for want of memory alone.
    pub fn seat(&self, alloc: Global, place: Place) -> Result<Seat, RelRefused>
        requires place { IsPlace self.now.flows place }
        ensures seat { IfOk result (λ seat. seat ≡ seat_for self.now place.flow) }
        ensures good { IfOk result (IsSeated self.now place.flow) }
        ensures memory { IfErr result (λ e. e ≡ RelRefused.Memory) }
    {
        let me = self.flows.me();
        let bound = self.flows.bound();
        if self.flows.numbers(place).active {
            Ok(Seat::none(me, bound, place.flow))
        } else {
            Ok(Seat::take(alloc, me, bound, place.flow)?)
        }
    }

    /// Keeps a client's message under the number that `room` gave.
    pub fn push(&mut self, message: Kept, seat: Seat)
        requires next { IsNextOwn self.old message.body }
        requires fields { FitsAFormat message.body }
        requires seat { IsSeated self.old (flow_said message.body) seat }
        ensures { self.new ≡ pushed_in self.old message }
    {
        let place = self.flows.place(flow_said(&message.body));
        self.flows.change(place, Change::Push(message), seat);
    }

    /// A neighbour reported where a flow stands there. It is dropped where the flow isn't active here.
    pub fn report(&mut self, v: NodeId, place: Place, base: u64, have: u64)
        requires place { IsPlace self.old.flows place }
        ensures table { self.new ≡ reported self.old v place.flow base have }
        ensures place { IsPlace self.new.flows place }
    {
        if self.flows.numbers(place).active {
            self.peers.tell(v, place.flow, base, have);
        }
    }

    /// The oldest message of the inbox of a flow to this node, which leaves it. None exactly where the inbox is empty.
    pub fn take(&mut self, src: NodeId) -> Option<Bytes>
        ensures taken { result ≡ oldest self.old src }
        ensures rest { self.new ≡ took self.old src }
    {
        let place = self.flows.place(Flow {
            src,
            dst: self.flows.me(),
        });
        self.flows.take(place)
    }
}

/// The flow of a message or an acknowledgement, or of their like of K-path flows.
pub(crate) fn flow_said(body: &Body) -> Flow
    ensures { result ≡ flow_said body.now }
{
    match body {
        Body::Rel(rel) => Flow::between(rel.src, rel.dst),
        Body::Ack(ack) => Flow::between(ack.src, ack.dst),
        Body::Krel(krel) => Flow::between(krel.src, krel.dst),
        Body::Kack(kack) => Flow::between(kack.src, kack.dst),
        _ => Flow::between(NodeId(0), NodeId(0)),
    }
}
