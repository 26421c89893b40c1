// How many complete rounds of a path a schedule has.
ghost use Rattle.std.specs.Prelude.{◌≤◌, IfOk, length};
ghost use Rattle.sp_auditor.specs.Counts.{IsCounted};
ghost use Rattle.sp_auditor.specs.Texts.{file_of};
ghost use Rattle.sp_base.specs.declared.limits.TheConstants.{MAX_INPUT_BYTES};

use crate::Unfit;
use crate::schedule::{Plain, plain_in};
use sp_audit::rounds;
use sp_base::{Memory, NodeId};
use sp_outside::Input;
use std::alloc::Global;

/// How many complete rounds of a path follow one after another.
#[derive(Clone, Copy, Debug, PartialEq, Eq)]
pub enum Count {
    /// So many.
    Rounds(u32),
    /// The nodes aren't a path of distinct correct nodes, at least two, each joined to the next.
    NoPath,
    /// No run of the schedule is judged.
    Unjudged(Unfit),
}

/// How many complete rounds of these nodes follow one after another among the events from this number on, counted from 1.
pub fn counted(alloc: Global, schedule: &Input, path: &[NodeId], from: u32) -> Result<Count, Memory>
    requires schedule { length schedule.now.bytes.items ≤ MAX_INPUT_BYTES }
    requires first { 1 ≤ from }
    ensures { IfOk result (IsCounted (file_of schedule.now) path.now from) }
{
    match plain_in(alloc, schedule.bytes.as_slice(), schedule.is_cut)? {
        Plain::Unfit(unfit) => Ok(Count::Unjudged(unfit)),
        Plain::Schedule(scenario, events) => {
            match rounds(&scenario, events.as_slice(), path, from as usize) {
                Ok(count) => Ok(Count::Rounds(count)),
                Err(_) => Ok(Count::NoPath),
            }
        }
    }
}
