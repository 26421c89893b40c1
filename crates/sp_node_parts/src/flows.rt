// The flows of a kind among the parts of a node: each call is that of their table.
ghost use Rattle.std.specs.Prelude.{◌≡◌, ◌<◌, Some, option_map};
ghost use Rattle.sp_msg.specs.Bodies.{payload_of};
ghost use Rattle.sp_msg.specs.declared.body.Body.TheVariants.{Ack as Acked};
ghost use Rattle.sp_rel.specs.Places.{IsPlace};
ghost use Rattle.sp_rel.specs.Seated.{IsSeated};
ghost use Rattle.sp_rules.specs.Changes.{FitsAFormat};
ghost use Rattle.sp_rules.specs.Parts.{flows_of, with_flows};
ghost use Rattle.sp_rules.specs.Rel.{admit_ack, admit_rel, due, judge_ack_of, judge_rel_of, plain, rel_effects, reported, served, settled};
ghost use Rattle.sp_rules.specs.Kflow as kflow;
ghost use Rattle.sp_rules.specs.Told.{told};

use crate::parts::Parts;
use sp_base::{Bytes, NodeId};
use sp_msg::{Effects, Kept};
use sp_rel::{AckJudged, Place, RelJudged, RelTable, Seat};
use sp_rules::FlowKind;

impl Parts {
    /// The flows of a kind.
    pub fn flows(&self, kind: FlowKind) -> &RelTable
        ensures { result.now ≡ flows_of kind self.now }
    {
        match kind {
            FlowKind::Plain => &self.rel,
            FlowKind::Paths => &self.kflow.flows,
        }
    }

    /// The acknowledgement of a flow of a kind that was due is signed, and is kept.
    pub fn signed(&mut self, kind: FlowKind, ack: Kept)
        requires due { option_map Acked (due (flows_of kind self.old)) ≡ Some (plain ack.body) }
        requires fields { FitsAFormat ack.body }
        ensures { self.new ≡ with_flows kind (settled (flows_of kind self.old) ack) self.old }
    {
        match kind {
            FlowKind::Plain => self.rel.signed(ack),
            FlowKind::Paths => self.kflow.flows.signed(ack),
        }
    }

    /// What was next in turn of the flows of both kinds went to a neighbour.
    pub fn served(&mut self, v: NodeId)
        ensures { self.new ≡ record self.old { rel = served self.old.rel v; kflow = kflow.with_flows self.old.kflow (served self.old.kflow.flows v) } }
    {
        self.rel.served(v);
        self.kflow.flows.served(v);
    }

    /// A neighbour reported where a flow of a kind stands there. It is dropped where the flow isn't active here.
    pub fn report(&mut self, kind: FlowKind, v: NodeId, place: Place, base: u64, have: u64)
        requires place { IsPlace (flows_of kind self.old).flows place }
        ensures parts { self.new ≡ with_flows kind (reported (flows_of kind self.old) v place.flow base have) self.old }
        ensures place { IsPlace (flows_of kind self.new).flows place }
    {
        match kind {
            FlowKind::Plain => self.rel.report(v, place, base, have),
            FlowKind::Paths => self.kflow.flows.report(v, place, base, have),
        }
    }

    /// Keeps a new acknowledgement of a flow of a kind: what it acknowledges is dropped here.
    pub fn admit_ack(&mut self, kind: FlowKind, ack: Kept, place: Place, seat: Seat)
        requires new { judge_ack_of (flows_of kind self.old) place.flow ack.body ≡ AckJudged.New }
        requires fields { FitsAFormat ack.body }
        requires place { IsPlace (flows_of kind self.old).flows place }
        requires seat { IsSeated (flows_of kind self.old) place.flow seat }
        ensures parts { self.new ≡ with_flows kind (admit_ack (flows_of kind self.old) ack) self.old }
        ensures place { IsPlace (flows_of kind self.new).flows place }
    {
        match kind {
            FlowKind::Plain => self.rel.admit_ack(ack, place, seat),
            FlowKind::Paths => self.kflow.flows.admit_ack(ack, place, seat),
        }
    }

    /// Takes a new message of a flow of a kind: it is delivered at the destination, and kept for the next node elsewhere. `payload` is a copy of its own.
    pub fn admit_rel(
        &mut self,
        kind: FlowKind,
        message: Kept,
        payload: Bytes,
        place: Place,
        seat: Seat,
        out: &mut Effects,
    )
        requires new { judge_rel_of (flows_of kind self.old) place.flow message.body ≡ RelJudged.New }
        requires fields { FitsAFormat message.body }
        requires payload { payload ≡ payload_of message.body }
        requires place { IsPlace (flows_of kind self.old).flows place }
        requires seat { IsSeated (flows_of kind self.old) place.flow seat }
        requires effect { 0 < out.old.room }
        ensures parts { self.new ≡ with_flows kind (admit_rel (flows_of kind self.old) message) self.old }
        ensures place { IsPlace (flows_of kind self.new).flows place }
        ensures effects { out.new ≡ told out.old (rel_effects (flows_of kind self.old) message) }
    {
        match kind {
            FlowKind::Plain => self.rel.admit_rel(message, payload, place, seat, out),
            FlowKind::Paths => self
                .kflow
                .flows
                .admit_rel(message, payload, place, seat, out),
        }
    }
}
