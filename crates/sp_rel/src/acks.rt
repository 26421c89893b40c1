// Acknowledgements of a slot: what is said of one, and keeping a new one.
ghost use Rattle.std.specs.Prelude.{◌≡◌};
ghost use Rattle.sp_rel.specs.Places.{IsPlace};
ghost use Rattle.sp_rel.specs.Seated.{IsSeated};
ghost use Rattle.sp_rules.specs.Changes.{FitsAFormat};
ghost use Rattle.sp_rules.specs.Rel.{admit_ack, judge_ack, judge_ack_of};

use crate::change::Change;
use crate::place::Place;
use crate::seat::Seat;
use crate::table::RelTable;
use sp_msg::{Ack, Kept};
use sp_rules::AckJudged;

impl RelTable {
    /// What is said of an acknowledgement in a slot of a flow, but for its signature.
    pub fn judge_ack(&self, place: Place, ack: &Ack) -> AckJudged
        requires place { IsPlace self.now.flows place }
        ensures { result ≡ judge_ack self.now place.flow ack.now }
    {
        if !self.are_ends(place.flow, ack.src, ack.dst) {
            return AckJudged::BadEnd;
        }
        let numbers = self.flows.numbers(place);
        let me = self.flows.me();
        if ack.seq <= numbers.base {
            AckJudged::Old
        } else if me.0 == place.flow.src.0 && numbers.have < ack.seq {
            AckJudged::Ahead
        } else if me.0 == place.flow.dst.0 {
            AckJudged::Ahead
        } else {
            AckJudged::New
        }
    }

    /// Keeps a new acknowledgement: what it acknowledges is dropped here.
    #[tactic(auto, using(crate::proofs::OwnFlows::ack_flow))]
    pub fn admit_ack(&mut self, ack: Kept, place: Place, seat: Seat)
        requires new { judge_ack_of self.old place.flow ack.body ≡ AckJudged.New }
        requires fields { FitsAFormat ack.body }
        requires place { IsPlace self.old.flows place }
        requires seat { IsSeated self.old place.flow seat }
        ensures table { self.new ≡ admit_ack self.old ack }
        ensures place { IsPlace self.new.flows place }
    {
        self.flows.change(place, Change::Acknowledge(ack), seat);
    }
}
