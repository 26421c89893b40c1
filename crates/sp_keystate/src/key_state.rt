// The state of a key file: what it stands for, and its next changes.
ghost use Rattle.std.specs.Prelude.{◌≡◌, ◌+◌, ◌<◌, ◌≤◌, ◌^◌, IfOk, IfSome, IsErrOf, OnErr, OnOk, min, true, ℕ};
ghost use Rattle.sp_outside.specs.Causes.{HasCause};
ghost use Rattle.sp_keystate.specs.Slots.{other, place};
ghost use Rattle.sp_keystate.specs.Changes.{ChangeMoments, Changes};

use crate::KeyRefused;
use crate::change::change;
use crate::numbers::Numbers;
use crate::slot::{InUse, Slot};
use sp_outside::{Failed, Keeper};

/// The last boot that is given.
const LAST_BOOT: u64 = (1 << 63) - 1;

/// What a key file stands for. After a fault it has to be opened again.
#[derive(Debug, Drop)]
pub struct KeyState {
    /// How many changes led to it.
    pub serial: u64,
    /// The indexes below this one are reserved, and may be used.
    pub bound: u64,
    /// How often the daemon was started.
    pub boot: u64,
    slot: Slot,
    is_current: bool,
}

impl KeyState {
    ghost use Rattle.sp_keystate.specs.Slots.{in_slot};
    ghost use Rattle.sp_keystate.specs.States.{HasFaultCause, IsChangeAnswer, IsChangedState, KeepsMeanwhile, SoundAs, StandsFor};
    ghost use Rattle.sp_keystate.specs.States.{boot_end, changed_state, next_numbers, numbers_of, outdated, reserve_end, serial_end};

    /// The state that was found in a file.
    pub(crate) fn found(found: InUse) -> Self
        ensures state { in_slot result.slot (numbers_of result) ≡ found }
        ensures current { result.is_current ≡ true }
    {
        let InUse { slot, numbers } = found;
        KeyState {
            serial: numbers.serial,
            bound: numbers.bound,
            boot: numbers.boot,
            slot,
            is_current: true,
        }
    }

    /// Reserves up to so many indexes more of this total, and gives the new bound: those below it may be used now.
    pub fn reserve<P: Keeper>(
        &mut self,
        keeper: &mut P,
        n: u64,
        total: u64,
    ) -> Result<u64, KeyRefused>
        requires { StandsFor (P.disk keeper.old) self.old }
        ensures bound { IfOk result (λ bound. bound ≡ min (self.old.bound + n) total) }
        ensures answer { IsChangeAnswer (reserve_end self.old total) result }
        ensures state { IsChangedState self.old (changed_state self.old (min (self.old.bound + n) total) self.old.boot) self.new result }
        ensures stands { OnOk result (StandsFor (P.disk keeper.new) self.new) }
        ensures serial { OnOk result (self.new.serial < 2 ^ 64) }
        ensures untouched { (number : ℕ) → IsErrOf result (KeyRefused.Exhausted number) → P.disk keeper.new ≡ P.disk keeper.old }
        ensures file { OnOk result (Changes (P.disk keeper.old) (P.disk keeper.new) (place (other self.old.slot))
            (next_numbers self.old (min (self.old.bound + n) total) self.old.boot)) }
        ensures moments { ChangeMoments (P.disk keeper.old) (P.past keeper.old) (P.past keeper.new) (place (other self.old.slot))
            (next_numbers self.old (min (self.old.bound + n) total) self.old.boot) }

        // Of a sound file every image meanwhile opens with at least the old bound, and after an Ok the one image with the new one.
        ensures kept { KeepsMeanwhile (P.disk keeper.old) (P.past keeper.old) (P.past keeper.new) self.old }
        ensures sound { OnOk result (IfSome (P.disk keeper.new) (SoundAs self.new)) }
        ensures cause { HasFaultCause (P.faults keeper.old) (P.faults keeper.new) result }
    {
        if self.bound >= total {
            return Err(KeyRefused::Exhausted { number: self.bound });
        }
        if self.serial == u64::MAX {
            return Err(KeyRefused::Exhausted {
                number: self.serial,
            });
        }
        let bound = self.bound.saturating_add(n).min(total);
        match self.change_to(keeper, bound, self.boot) {
            Ok(()) => Ok(bound),
            Err(Failed) => Err(KeyRefused::KeeperFault),
        }
    }

    /// Takes the number of the next start, and gives it.
    pub fn next_boot<P: Keeper>(&mut self, keeper: &mut P) -> Result<u64, KeyRefused>
        requires { StandsFor (P.disk keeper.old) self.old }
        ensures boot { IfOk result (λ boot. boot ≡ self.old.boot + 1) }
        ensures answer { IsChangeAnswer (boot_end self.old) result }
        ensures state { IsChangedState self.old (changed_state self.old self.old.bound (self.old.boot + 1)) self.new result }
        ensures stands { OnOk result (StandsFor (P.disk keeper.new) self.new) }
        ensures untouched { (number : ℕ) → IsErrOf result (KeyRefused.Exhausted number) → P.disk keeper.new ≡ P.disk keeper.old }
        ensures file { OnOk result (Changes (P.disk keeper.old) (P.disk keeper.new) (place (other self.old.slot))
            (next_numbers self.old self.old.bound (self.old.boot + 1))) }
        ensures moments { ChangeMoments (P.disk keeper.old) (P.past keeper.old) (P.past keeper.new) (place (other self.old.slot))
            (next_numbers self.old self.old.bound (self.old.boot + 1)) }

        // Of a sound file every image meanwhile opens with at least the old boot, and after an Ok the one image with the new one.
        ensures kept { KeepsMeanwhile (P.disk keeper.old) (P.past keeper.old) (P.past keeper.new) self.old }
        ensures sound { OnOk result (IfSome (P.disk keeper.new) (SoundAs self.new)) }
        ensures cause { HasFaultCause (P.faults keeper.old) (P.faults keeper.new) result }
    {
        if self.boot >= LAST_BOOT {
            return Err(KeyRefused::Exhausted { number: self.boot });
        }
        if self.serial == u64::MAX {
            return Err(KeyRefused::Exhausted {
                number: self.serial,
            });
        }
        let boot = self.boot + 1;
        match self.change_to(keeper, self.bound, boot) {
            Ok(()) => Ok(boot),
            Err(Failed) => Err(KeyRefused::KeeperFault),
        }
    }

    /// Writes these numbers to the other slot.
    fn change_to<P: Keeper>(&mut self, keeper: &mut P, bound: u64, boot: u64) -> Result<(), Failed>
        requires stands { StandsFor (P.disk keeper.old) self.old }
        requires serial { self.old.serial + 1 < 2 ^ 64 }
        requires bound { self.old.bound ≤ bound }
        requires boot { self.old.boot ≤ boot }
        ensures done { OnOk result (self.new ≡ changed_state self.old bound boot) }
        ensures failed { OnErr result (self.new ≡ outdated self.old) }
        ensures stands { OnOk result (StandsFor (P.disk keeper.new) self.new) }
        ensures file { OnOk result (Changes (P.disk keeper.old) (P.disk keeper.new) (place (other self.old.slot)) (next_numbers self.old bound boot)) }
        ensures moments { ChangeMoments (P.disk keeper.old) (P.past keeper.old) (P.past keeper.new) (place (other self.old.slot))
            (next_numbers self.old bound boot) }
        ensures kept { KeepsMeanwhile (P.disk keeper.old) (P.past keeper.old) (P.past keeper.new) self.old }
        ensures sound { OnOk result (IfSome (P.disk keeper.new) (SoundAs self.new)) }
        ensures cause { HasCause (P.faults keeper.old) (P.faults keeper.new) result }
    {
        let numbers = Numbers {
            serial: self.serial + 1,
            bound,
            boot,
        };
        let slot = self.slot.other();
        self.is_current = false;
        change(keeper, slot, &numbers)?;
        *self = KeyState::found(InUse { slot, numbers });
        Ok(())
    }
}
