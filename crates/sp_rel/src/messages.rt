// Messages of a slot: what is said of one, and taking a new one.
ghost use Rattle.std.specs.Prelude.{◌≡◌, ◌-◌, ◌<◌, ◌++◌, length};
ghost use Rattle.sp_msg.specs.Bodies.{payload_of};
ghost use Rattle.sp_rel.specs.Places.{IsPlace};
ghost use Rattle.sp_rel.specs.Seated.{IsSeated};
ghost use Rattle.sp_rules.specs.Changes.{FitsAFormat};
ghost use Rattle.sp_rules.specs.Flow.{IsReliable};
ghost use Rattle.sp_rules.specs.Rel.{admit_rel, delivery, judge_rel, judge_rel_of, rel_effects};

use crate::change::Change;
use crate::place::Place;
use crate::seat::Seat;
use crate::table::RelTable;
use sp_base::{Bytes, NodeId};
use sp_msg::{Body, Effect, Effects, Kept};
use sp_rules::RelJudged;

impl RelTable {
    /// What is said of the message of these ends and this number in a slot of a flow, but for its signature.
    pub fn judge_rel(&self, place: Place, src: NodeId, dst: NodeId, seq: u64) -> RelJudged
        requires place { IsPlace self.now.flows place }
        ensures { result ≡ judge_rel self.now place.flow src dst seq }
    {
        if !self.are_ends(place.flow, src, dst) {
            return RelJudged::BadEnd;
        }
        let numbers = self.flows.numbers(place);
        let me = self.flows.me();
        let bound = self.flows.bound();
        if seq <= numbers.have {
            RelJudged::Old
        } else if me.0 == place.flow.src.0 {
            RelJudged::Ahead
        } else if numbers.have + 1 < seq {
            RelJudged::Gap
        } else if numbers.have - numbers.base == u64::from(bound) {
            RelJudged::Full
        } else if me.0 == place.flow.dst.0 && numbers.waiting == bound as usize {
            RelJudged::InboxFull
        } else {
            RelJudged::New
        }
    }

    /// Takes a new message: it is delivered at the destination, and kept for the next node elsewhere. `payload` is a copy of its own.
    #[tactic(auto, using(crate::proofs::OwnFlows::rel_flow))]
    pub fn admit_rel(
        &mut self,
        message: Kept,
        payload: Bytes,
        place: Place,
        seat: Seat,
        out: &mut Effects,
    )
        requires new { judge_rel_of self.old place.flow message.body ≡ RelJudged.New }
        requires fields { FitsAFormat message.body }
        requires payload { payload ≡ payload_of message.body }
        requires place { IsPlace self.old.flows place }
        requires seat { IsSeated self.old place.flow seat }
        requires effect { 0 < out.old.room }
        ensures table { self.new ≡ admit_rel self.old message }
        ensures place { IsPlace self.new.flows place }
        ensures effects { out.new ≡ record {
          list = out.old.list ++ rel_effects self.old message;
          room = out.old.room - length (rel_effects self.old message);
        } }
    {
        if self.flows.me().0 == place.flow.dst.0 {
            self.flows.change(place, Change::Receive(payload), seat);
            out.push(delivery(message));
        } else {
            self.flows.change(place, Change::Push(message), seat);
        }
    }
}

/// The delivery of a message.
fn delivery(message: Kept) -> Effect
    requires { IsReliable message.body }
    ensures { result ≡ delivery message.body }
{
    let Kept { body, .. } = message;
    match body {
        Body::Rel(rel) => Effect::Delivered {
            src: rel.src,
            seq: rel.seq,
            payload: rel.payload,
        },
        Body::Krel(krel) => Effect::DeliveredKrel {
            src: krel.src,
            seq: krel.seq,
            payload: krel.payload,
        },
        _ => unreachable!(),
    }
}
