// Who acts.
ghost use Rattle.std.specs.Prelude.{◌≡◌};
ghost use Rattle.sp_schedule_events.specs.Acting.{acting};

use crate::Event;
use sp_base::NodeId;

impl Event {
    /// The node that acts.
    pub fn acting(&self) -> NodeId
        ensures { result ≡ acting self.now }
    {
        match self {
            Event::Rel { s, .. } | Event::Prio { s, .. } | Event::Krel { s, .. } => *s,
            Event::Take { d, .. } | Event::TakePrio { d } | Event::KTake { d, .. } => *d,
            Event::Tick { u, .. } | Event::Weight { u, .. } | Event::Poll { u, .. } => *u,
            Event::Pass { v, .. } | Event::Flip { v, .. } | Event::Inject { v, .. } => *v,
            Event::Craft { v, .. } | Event::CraftStatus { v, .. } => *v,
            Event::CraftDocument { v, .. } => *v,
            Event::Start { u } | Event::Stop { u } | Event::Publish { u, .. } => *u,
        }
    }
}
