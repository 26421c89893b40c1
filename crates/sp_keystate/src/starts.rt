// What a daemon does with its key file before it signs.
ghost use Rattle.std.specs.Prelude.{IfErr, IfOk, IfSome};
ghost use Rattle.sp_keystate.specs.States.{HasFaultCause, StandsFor};
ghost use Rattle.sp_keystate.specs.Starting.{IsStartAnswer, KeepsAll, NoStart, Starts, StartsSafely};

use crate::{KeyRefused, KeyState, open};
use sp_outside::Keeper;

/// How many indexes a daemon reserves at a time: at its start, and where few are left.
pub const RESERVED: u64 = 32;

/// How many reserved indexes a node begins a turn or an event with at least, while there are so many. It signs twice in one at most.
pub const LEAST_LEFT: u64 = 4;

/// A start: the state of the key file, and the first index that may be used. Those up to, and not with, the state's bound are reserved.
#[derive(Debug, Drop)]
pub struct Started {
    pub state: KeyState,
    pub first: u64,
}

/// Opens a key file, takes the next boot, and reserves up to so many indexes of this total. They begin at the bound that was found.
pub fn start<P: Keeper>(keeper: &mut P, n: u64, total: u64) -> Result<Started, KeyRefused>
    ensures started { IfOk result (Starts (P.disk keeper.old) (P.disk keeper.new) n total) }
    ensures stands { IfOk result (λ started. StandsFor (P.disk keeper.new) started.state) }
    ensures safe { IfOk result (StartsSafely (P.disk keeper.old) (P.disk keeper.new)) }
    ensures answer { IsStartAnswer result }
    ensures refused { IfErr result (NoStart (P.disk keeper.old) total) }
    ensures kept { KeepsAll (P.disk keeper.old) (P.past keeper.old) (P.past keeper.new) }
    ensures cause { HasFaultCause (P.faults keeper.old) (P.faults keeper.new) result }
{
    let mut state = open(keeper)?;
    let first = state.bound;
    state.next_boot(keeper)?;
    state.reserve(keeper, n, total)?;
    Ok(Started { state, first })
}
