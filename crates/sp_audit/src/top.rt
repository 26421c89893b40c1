// The greatest number that a run names as a node or a place: above it nothing is told.
ghost use Rattle.std.specs.Prelude.{◌≡◌, ◌≤◌, length};
ghost use Rattle.std.specs.List.{All};
ghost use Rattle.sp_audit.specs.Tops.{IsTop, names};

use sp_journal::Entry;
use sp_msg::Effect;
use sp_schedule_events::Event;

/// No event is of a node above it, and no effect of a place or a source above it.
pub fn top_of(events: &[Event], journal: &[Entry]) -> u8
    requires { length events.now ≡ length journal.now }
    ensures { IsTop events.now journal.now result }
{
    let mut top = 0u8;
    'events: for place in 0..events.len() {
        top = top.max(events[place].acting().0);
        top = top.max(top_told(journal[place].effects.as_slice()));
    }
    top
}

/// The greatest number of a place or a source that these effects name.
fn top_told(effects: &[Effect]) -> u8
    ensures { All (λ e. names e ≤ result) effects.now }
{
    let mut top = 0u8;
    'effects: for place in 0..effects.len() {
        top = top.max(names(&effects[place]));
    }
    top
}

/// The place or the source that an effect names, or 0.
fn names(effect: &Effect) -> u8
    ensures { result ≡ names effect.now }
{
    match effect {
        Effect::Stored { place, .. } | Effect::Gone { place, .. } => *place,
        Effect::Delivered { src, .. }
        | Effect::DeliveredPrio { src, .. }
        | Effect::DeliveredKrel { src, .. } => src.0,
        _ => 0,
    }
}
