// How many frames the hops of a path made, so that a round is counted by its own events alone.
ghost use Rattle.std.specs.Prelude.{◌≡◌, ◌+◌, ◌≤◌, ◌++◌, List, length, replicate};
ghost use Rattle.sp_audit.specs.Ends.{AreMade};
ghost use Rattle.sp_base.specs.declared.limits.TheConstants.{MAX_EVENTS};
ghost use Rattle.sp_rules.specs.declared.store.TheConstants.{IDS};
ghost use Rattle.sp_schedule_events.specs.declared.event.Event.{Event};

use crate::sweeps::polls;
use sp_base::NodeId;
use sp_rules::IDS;
use sp_schedule_events::Event;

/// For each hop of a path, at the place of its second node: how many frames were made, forth from the first to the second, and back.
/// No path has more nodes than there are numbers of nodes.
#[derive(Debug, Drop)]
pub struct Made {
    pub forth: [usize; IDS],
    pub back: [usize; IDS],
}

impl Made {
    pub fn none() -> Made
        ensures forth { result.forth ≡ replicate IDS 0 }
        ensures back { result.back ≡ replicate IDS 0 }
    {
        Made {
            forth: [0; IDS],
            back: [0; IDS],
        }
    }

    /// Counts the frames of some events more.
    pub fn count(&mut self, events: &[Event], path: &[NodeId])
        requires { length path.now ≤ IDS }
        ensures { (es : List Event) → length es + length events.now ≤ MAX_EVENTS → AreMade self.old.forth self.old.back path.now es
            → AreMade self.new.forth self.new.back path.now (es ++ events.now) }
    {
        'hops: for place in 1..path.len() {
            let (u, v) = (path[place - 1], path[place]);
            self.forth[place] = self.forth[place].saturating_add(polls(events, u, v));
            self.back[place] = self.back[place].saturating_add(polls(events, v, u));
        }
    }
}
