// Why a world does no more events.
ghost use Rattle.std.specs.Prelude.{◌≡◌, ◌⊎◌, IfOk};

use sp_base::{Bytes, Memory};
use sp_runs::What;
use std::alloc::Global;
use thiserror::Error;

/// Why an event isn't done. After it none is.
#[derive(Debug, Drop, Error)]
pub enum WorldRefused {
    /// In the event of this number, counted from 1, something is forged: only a broken tag or signature could have made it.
    #[error("event {event} is forged")]
    Forged { event: u32, what: What },
    /// No memory was left for what the event brings.
    #[error("no memory is left")]
    Memory,
}

impl From<Memory> for WorldRefused {
    ghost use Rattle.std.specs.Prelude.{◌≡◌};
    ghost use Rattle.sp_world.specs.declared.refused.WorldRefused.TheVariants.{Memory as no_memory};

    ghost from_gives = { λ _ e. e ≡ no_memory };

    fn from(_: Memory) -> Self {
        WorldRefused::Memory
    }
}

impl WorldRefused {
    /// The same once more, or `Memory` where none is left for it.
    pub(crate) fn again(&self, alloc: Global) -> WorldRefused
        ensures { (result ≡ self.now) ⊎ (result ≡ WorldRefused.Memory) }
    {
        match self {
            WorldRefused::Forged { event, what } => match copy_of(alloc, what) {
                Ok(what) => WorldRefused::Forged {
                    event: *event,
                    what,
                },
                Err(_) => WorldRefused::Memory,
            },
            WorldRefused::Memory => WorldRefused::Memory,
        }
    }
}

/// What is forged, once more.
fn copy_of(alloc: Global, what: &What) -> Result<What, Memory>
    ensures { IfOk result (λ copied. copied ≡ what.now) }
{
    match what {
        What::Tag => Ok(What::Tag),
        What::Object(bytes) => Ok(What::Object(Bytes::copy(alloc, bytes.as_slice())?)),
    }
}
