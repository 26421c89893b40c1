// Taking a path out of the flow: from part to part along lanes that are used, which then are used no more.
ghost use Rattle.std.specs.Prelude.{◌≡◌, ◌+◌, ◌<◌, ℕ, IfOk, length};
ghost use Rattle.sp_paths.specs.Flows.{Flow};
ghost use Rattle.sp_paths.specs.Taken.{IsFirst, IsLowest, Leads, Taken, first_of};

use crate::lane::{Lane, flipped};
use crate::limits::PARTS;
use sp_base::Memory;
use std::alloc::Global;
use std::vec::Vec;

/// The first lane that is used and begins here.
fn next(lanes: &[Lane], here: u8) -> Option<usize>
    ensures { IsFirst lanes.now here result }
{
    for place in 0..lanes.len() {
        let lane = lanes[place];
        if lane.used && lane.from == here {
            return Some(place);
        }
    }
    None
}

/// Takes a walk from `s` to `t` out of a flow of one path at least. Gives the places of its lanes.
pub fn walk(alloc: Global, lanes: &mut [Lane], s: u8, t: u8) -> Result<Vec<usize>, Memory>
    requires flow { (r : ℕ) × Flow s t (r + 1) lanes.old }
    ensures flow { IfOk result (λ _. (r : ℕ) → Flow s t (r + 1) lanes.old → Flow s t r lanes.new) }
    ensures leads { IfOk result (λ walk. Leads lanes.old s walk.items t) }
    ensures first { IfOk result (λ walk. IsLowest lanes.old s (first_of walk.items)) }
    ensures taken { IfOk result (λ walk. Taken lanes.old lanes.new walk.items) }
{
    let mut walk = Vec::with_capacity(alloc, PARTS)?;
    let mut here = s;
    'on: while here != t {
        let place = next(lanes, here).unwrap();
        here = lanes[place].to;
        lanes[place] = flipped(lanes[place]);
        walk.push(place)?;
    }
    Ok(walk)
}
