// What the administrator published, so that it is known without a walk over the events.
ghost use Rattle.std.specs.Prelude.{◌≡◌, ◌+◌, ◌<◌, ◌^◌, IfOk};
ghost use Rattle.sp_schedule_events.specs.Documents.{list_in, none_published, with_list};

use crate::Event;
use crate::event_copy::copy_weights;
use sp_base::{Listed, Memory};
use std::alloc::Global;

/// The last version of the topology that was signed, and its weights, where a list of them was published: version 1 is the scenario's own.
#[derive(Debug, Drop)]
pub struct Published {
    pub version: u32,
    pub weights: Option<Listed<u32>>,
}

/// The scenario's own document.
pub fn none_published() -> Published
    ensures { result ≡ none_published }
{
    Published {
        version: 1,
        weights: None,
    }
}

/// The weights of a line, where it publishes some.
pub fn list_in(alloc: Global, event: &Event) -> Result<Option<Listed<u32>>, Memory>
    ensures { IfOk result (λ list. list ≡ list_in event.now) }
{
    match event {
        Event::Publish { weights, .. } => copy_weights(alloc, weights),
        _ => Ok(None),
    }
}

/// A list more, where there is one.
pub fn add_list(published: &mut Published, list: Option<Listed<u32>>)
    requires { published.old.version + 1 < 2 ^ 32 }
    ensures { published.new ≡ with_list published.old list }
{
    if let Some(weights) = list {
        published.version += 1;
        published.weights = Some(weights);
    }
}
