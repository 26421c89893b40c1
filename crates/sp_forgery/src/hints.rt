// At which event a message may have been signed: a table that may be wrong, so that no answer depends on it.
use sp_base::Memory;
use sp_msg::Effect;
use std::alloc::Global;

/// How many places there are for hints.
const PLACES: usize = 65_536;

/// The start and the factor of the hash FNV-1a with 64 bits.
const HASH_START: u64 = 0xcbf2_9ce4_8422_2325;

const HASH_FACTOR: u64 = 0x100_0000_01b3;

/// For each hash of a message, the place of the last event that signed one of that hash.
#[derive(Debug, Drop)]
pub struct Hints {
    places: Vec<u32>,
}

impl Hints {
    /// No message is known yet.
    pub fn new(alloc: Global) -> Result<Hints, Memory> {
        let places = vec![in alloc; 0u32; PLACES].map_err(Memory::from)?;
        Ok(Hints { places })
    }

    /// The event in this place, counted from 0, had these effects. It takes no memory.
    pub fn note(&mut self, place: u32, effects: &[Effect]) {
        'effects: for effect in effects {
            if let Effect::Signed(message) = effect {
                self.set(message.as_slice(), place);
            }
        }
    }

    fn set(&mut self, message: &[u8], place: u32) {
        if let Some(hint) = self.places.get_mut(place_of(message)) {
            *hint = place;
        }
    }

    /// The place of an event that may have signed the message.
    pub(crate) fn at(&self, message: &[u8]) -> usize {
        match self.places.get(place_of(message)) {
            Some(place) => *place as usize,
            None => 0,
        }
    }
}

/// Where the hint of a message stands.
fn place_of(message: &[u8]) -> usize {
    let mut hash = HASH_START;
    'bytes: for byte in message {
        hash = (hash ^ u64::from(*byte)).wrapping_mul(HASH_FACTOR);
    }
    ((hash ^ (hash >> 32)) as usize) % PLACES
}
