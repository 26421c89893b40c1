// What stands in a key file.
ghost use Rattle.std.specs.Prelude.{◌≡◌, ◌≤◌, IfOk, IfSome, length};
ghost use Rattle.sp_outside.specs.Causes.{HasCause};
ghost use Rattle.sp_outside.specs.Disk.{bytes_of};
ghost use Rattle.sp_outside.specs.Moments.{LeavesWithin};
ghost use Rattle.sp_keystate.specs.Slots.{opened_at, place};
ghost use Rattle.sp_keystate.specs.States.{Finds};

use crate::numbers::{NUMBERS_BYTES, Numbers};
use crate::slot::{InUse, OPEN_GATE, SLOT_BYTES, Slot, latest};
use sp_outside::{Failed, Keeper};

/// The numbers of a slot of which these bytes were read, if it is open.
fn opened(piece: &[u8]) -> Option<Numbers>
    requires { length piece.now ≤ SLOT_BYTES }
    ensures { result ≡ opened_at piece.now 0 }
{
    match piece {
        [OPEN_GATE, behind @ ..] if behind.len() == NUMBERS_BYTES => Some(Numbers::of(behind)),
        _ => None,
    }
}

/// The numbers of a slot, if it is open.
fn read_slot<P: Keeper>(keeper: &mut P, slot: Slot) -> Result<Option<Numbers>, Failed>
    ensures numbers { IfOk result (λ numbers. IfSome (P.disk keeper.old) (λ disk. numbers ≡ opened_at (bytes_of disk) (place slot))) }
    ensures as_before { P.disk keeper.new ≡ P.disk keeper.old }
    ensures moments { LeavesWithin (P.disk keeper.old) (P.past keeper.old) (P.past keeper.new) }
    ensures cause { HasCause (P.faults keeper.old) (P.faults keeper.new) result }
{
    let mut bytes = [0; SLOT_BYTES];
    let count = keeper.read(slot.place(), &mut bytes)?;
    Ok(opened(&bytes[..count]))
}

/// What the file stands for, once all that was written is on the disk.
pub fn find<P: Keeper>(keeper: &mut P) -> Result<Option<InUse>, Failed>
    ensures found { IfOk result (Finds (P.disk keeper.old) (P.disk keeper.new)) }
    ensures moments { LeavesWithin (P.disk keeper.old) (P.past keeper.old) (P.past keeper.new) }
    ensures cause { HasCause (P.faults keeper.old) (P.faults keeper.new) result }
{
    keeper.sync()?;
    let first = read_slot(keeper, Slot::First)?;
    let second = read_slot(keeper, Slot::Second)?;
    Ok(latest(first, second))
}
