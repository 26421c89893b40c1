// The change of a slot, in three pieces of one write and one sync each.
ghost use Rattle.std.specs.Prelude.{◌≡◌, ◌+◌, ◌∷◌, ◌≤◌, [], length, OnOk};
ghost use Rattle.sp_outside.specs.Causes.{HasCause};
ghost use Rattle.sp_outside.specs.declared.keeper.TheConstants.{FILE_BYTES};
ghost use Rattle.sp_keystate.specs.Changes.{ChangeMoments, Changes, PutMoments, Puts};
ghost use Rattle.sp_keystate.specs.Slots.{bytes_in, place};

use crate::numbers::Numbers;
use crate::slot::{CLOSED_GATE, OPEN_GATE, Slot};
use sp_outside::{FILE_BYTES, Failed, Keeper};

/// Writes a piece and syncs it.
#[tactic(auto, using(crate::proofs::Pieces::put_done, crate::proofs::Pieces::put_moments))]
fn put<P: Keeper>(keeper: &mut P, at: u64, bytes: &[u8]) -> Result<(), Failed>
    requires { at + length bytes.now ≤ FILE_BYTES }
    ensures done { OnOk result (Puts (P.disk keeper.old) (P.disk keeper.new) at bytes.now) }
    ensures moments { PutMoments (P.disk keeper.old) (P.past keeper.old) (P.past keeper.new) at bytes.now }
    ensures cause { HasCause (P.faults keeper.old) (P.faults keeper.new) result }
{
    keeper.write_at(at, bytes)?;
    keeper.sync()
}

/// Closes the gate of a slot.
fn close<P: Keeper>(keeper: &mut P, slot: Slot) -> Result<(), Failed>
    ensures done { OnOk result (Puts (P.disk keeper.old) (P.disk keeper.new) (place slot) (CLOSED_GATE ∷ [])) }
    ensures moments { PutMoments (P.disk keeper.old) (P.past keeper.old) (P.past keeper.new) (place slot) (CLOSED_GATE ∷ []) }
    ensures cause { HasCause (P.faults keeper.old) (P.faults keeper.new) result }
{
    put(keeper, slot.place(), &[CLOSED_GATE])
}

/// Writes numbers behind the gate of a slot.
fn number<P: Keeper>(keeper: &mut P, slot: Slot, numbers: &Numbers) -> Result<(), Failed>
    ensures done { OnOk result (Puts (P.disk keeper.old) (P.disk keeper.new) (place slot + 1) (bytes_in numbers.now)) }
    ensures moments { PutMoments (P.disk keeper.old) (P.past keeper.old) (P.past keeper.new) (place slot + 1) (bytes_in numbers.now) }
    ensures cause { HasCause (P.faults keeper.old) (P.faults keeper.new) result }
{
    put(keeper, slot.place() + 1, &numbers.bytes())
}

/// Opens the gate of a slot.
fn unlock<P: Keeper>(keeper: &mut P, slot: Slot) -> Result<(), Failed>
    ensures done { OnOk result (Puts (P.disk keeper.old) (P.disk keeper.new) (place slot) (OPEN_GATE ∷ [])) }
    ensures moments { PutMoments (P.disk keeper.old) (P.past keeper.old) (P.past keeper.new) (place slot) (OPEN_GATE ∷ []) }
    ensures cause { HasCause (P.faults keeper.old) (P.faults keeper.new) result }
{
    put(keeper, slot.place(), &[OPEN_GATE])
}

/// Makes these numbers those of a slot: its gate is closed, the numbers are written behind it, its gate is opened.
pub fn change<P: Keeper>(keeper: &mut P, slot: Slot, numbers: &Numbers) -> Result<(), Failed>
    ensures done { OnOk result (Changes (P.disk keeper.old) (P.disk keeper.new) (place slot) numbers.now) }
    ensures moments { ChangeMoments (P.disk keeper.old) (P.past keeper.old) (P.past keeper.new) (place slot) numbers.now }
    ensures cause { HasCause (P.faults keeper.old) (P.faults keeper.new) result }
{
    close(keeper, slot)?;
    number(keeper, slot, numbers)?;
    unlock(keeper, slot)
}
