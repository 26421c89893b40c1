// Reaching parts from the source, the nearest first, until the destination is among them.
ghost use Rattle.std.specs.Prelude.{◌≡◌, ◌<◌, IfOk, length, option_map};
ghost use Rattle.sp_paths.specs.Trees.{GrowsTo, IsReady, IsStart};

use crate::lane::{Lane, head};
use crate::nearest::{nearest, raise};
use sp_base::Memory;
use std::alloc::Global;
use std::vec::Vec;

/// Reaches part after part, until `t` is reached. Gives the places of the lanes that lead there from `s`, each after the one that it hangs at.
/// None where no residual arc leads out of what is reached.
pub fn grow(
    alloc: Global,
    lanes: &[Lane],
    potential: &mut [u64],
    reached: &mut [bool],
    s: u8,
    t: u8,
) -> Result<Option<Vec<usize>>, Memory>
    requires ready { IsReady s lanes.now potential.old }
    requires start { IsStart s reached.old }
    requires lengths { length reached.old ≡ length potential.old }
    requires there { t < length potential.old }
    ensures { IfOk result (λ found. GrowsTo potential.old s t lanes.now potential.new reached.new (option_map (λ tree. tree.items) found)) }
{
    let mut tree = Vec::with_capacity(alloc, reached.len())?;
    'turns: while !reached[t as usize] {
        let Some((place, gap)) = nearest(lanes, potential, reached) else {
            return Ok(None);
        };
        raise(potential, reached, gap);
        reached[head(lanes[place]) as usize] = true;
        tree.push(place)?;
    }
    Ok(Some(tree))
}
