// The two slots of a key file, and the one that is in use.
ghost use Rattle.std.specs.Prelude.{◌≡◌, ◌+◌, ◌≤◌};
ghost use Rattle.sp_outside.specs.declared.keeper.TheConstants.{FILE_BYTES};
ghost use Rattle.sp_keystate.specs.Slots.{latest, other, place};

use crate::numbers::{NUMBERS_BYTES, Numbers};

/// How many bytes a slot has: its gate and its numbers.
pub const SLOT_BYTES: usize = 1 + NUMBERS_BYTES;

/// The gate of an open slot.
pub const OPEN_GATE: u8 = 0xa5;

/// The gate that closes a slot.
pub const CLOSED_GATE: u8 = 0;

const FIRST_PLACE: u64 = 0;

const SECOND_PLACE: u64 = 64;

#[derive(Clone, Copy, Debug, PartialEq, Eq)]
pub enum Slot {
    First,
    Second,
}

/// The slot that a file's numbers are in, and these numbers.
#[derive(Clone, Copy, Debug, PartialEq, Eq)]
pub struct InUse {
    pub slot: Slot,
    pub numbers: Numbers,
}

impl Slot {
    /// Where the slot begins in the file.
    pub fn place(self) -> u64
        ensures place { result ≡ place self }
        ensures within { result + SLOT_BYTES ≤ FILE_BYTES }
    {
        match self {
            Slot::First => FIRST_PLACE,
            Slot::Second => SECOND_PLACE,
        }
    }

    /// The slot that a change of this one's numbers is written to.
    pub fn other(self) -> Slot
        ensures { result ≡ other self }
    {
        match self {
            Slot::First => Slot::Second,
            Slot::Second => Slot::First,
        }
    }
}

/// The slot of the greatest serial, the first where both are equal.
pub fn latest(first: Option<Numbers>, second: Option<Numbers>) -> Option<InUse>
    ensures { result ≡ latest first second }
{
    let Some(second) = second else {
        return first.map(|numbers| InUse {
            slot: Slot::First,
            numbers,
        });
    };
    match first {
        Some(numbers) if numbers.serial >= second.serial => Some(InUse {
            slot: Slot::First,
            numbers,
        }),
        _ => Some(InUse {
            slot: Slot::Second,
            numbers: second,
        }),
    }
}
