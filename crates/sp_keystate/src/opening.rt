// Making a key file, and opening one.
ghost use Rattle.std.specs.Prelude.{◌≡◌, IfOk, IsErrOf, None, OnOk, Some};
ghost use Rattle.sp_outside.specs.Moments.{LeavesWithin};
ghost use Rattle.sp_keystate.specs.declared.slot.InUse.{InUse};
ghost use Rattle.sp_keystate.specs.Slots.{in_slot};
ghost use Rattle.sp_keystate.specs.States.{Finds, FormatMoments, Formats, FormatsSafely, HasFaultCause, IsFormatAnswer, IsOpenAnswer};
ghost use Rattle.sp_keystate.specs.States.{OpensSafely, StandsFor, first_numbers, numbers_of};

use crate::change::change;
use crate::numbers::Numbers;
use crate::reading::find;
use crate::slot::{InUse, Slot};
use crate::{KeyRefused, KeyState};
use sp_outside::Keeper;

/// Makes an empty file one of which no index is reserved and no start is counted.
pub fn format<P: Keeper>(keeper: &mut P) -> Result<KeyState, KeyRefused>
    ensures state { IfOk result (λ state. in_slot state.slot (numbers_of state) ≡ in_slot Slot.First first_numbers) }
    ensures stands { IfOk result (StandsFor (P.disk keeper.new)) }
    ensures file { OnOk result (Formats (P.disk keeper.old) (P.disk keeper.new)) }
    ensures safe { IfOk result (FormatsSafely (P.disk keeper.old) (P.disk keeper.new)) }
    ensures formatted { IsErrOf result KeyRefused.Formatted → (found : InUse) × Finds (P.disk keeper.old) (P.disk keeper.new) (Some found) }
    ensures answer { IsFormatAnswer result }
    ensures moments { FormatMoments (P.disk keeper.old) (P.past keeper.old) (P.past keeper.new) }
    ensures cause { HasFaultCause (P.faults keeper.old) (P.faults keeper.new) result }
{
    let Ok(found) = find(keeper) else {
        return Err(KeyRefused::KeeperFault);
    };
    if found.is_some() {
        return Err(KeyRefused::Formatted);
    }
    let slot = Slot::First;
    let numbers = Numbers {
        serial: 1,
        bound: 0,
        boot: 0,
    };
    let Ok(()) = change(keeper, slot, &numbers) else {
        return Err(KeyRefused::KeeperFault);
    };
    Ok(KeyState::found(InUse { slot, numbers }))
}

/// What a key file stands for, once all that was written to it is on the disk.
pub fn open<P: Keeper>(keeper: &mut P) -> Result<KeyState, KeyRefused>
    ensures state { IfOk result (λ state. Finds (P.disk keeper.old) (P.disk keeper.new) (Some (in_slot state.slot (numbers_of state)))) }
    ensures stands { IfOk result (StandsFor (P.disk keeper.new)) }
    ensures safe { IfOk result (OpensSafely (P.disk keeper.old) (P.disk keeper.new)) }
    ensures unformatted { IsErrOf result KeyRefused.Unformatted → Finds (P.disk keeper.old) (P.disk keeper.new) None }
    ensures answer { IsOpenAnswer result }
    ensures moments { LeavesWithin (P.disk keeper.old) (P.past keeper.old) (P.past keeper.new) }
    ensures cause { HasFaultCause (P.faults keeper.old) (P.faults keeper.new) result }
{
    match find(keeper) {
        Ok(Some(found)) => Ok(KeyState::found(found)),
        Ok(None) => Err(KeyRefused::Unformatted),
        Err(_) => Err(KeyRefused::KeeperFault),
    }
}
