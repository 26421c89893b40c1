// What an event and its entry are to a node.
ghost use Rattle.std.specs.Prelude.{◌≡◌, ◌==◌, [], if◌then◌else◌};
ghost use Rattle.sp_runs.specs.Inputs.{acting};

use sp_base::NodeId;
use sp_journal::Entry;
use sp_msg::Effect;
use sp_schedule_events::Event;

/// The effects of an event of `u`, and none of another.
pub fn effects_when<'a>(event: &Event, entry: &'a Entry, u: NodeId) -> &'a [Effect]
    ensures { result.now ≡ (if (acting event.now).0 == u.0 then entry.now.effects else []) }
{
    if event.acting() == u {
        entry.effects.as_slice()
    } else {
        &[]
    }
}
