// Taking the whole flow apart, one path after the other.
ghost use Rattle.std.specs.Prelude.{IfOk, map};
ghost use Rattle.sp_paths.specs.Flows.{Flow};
ghost use Rattle.sp_paths.specs.Taken.{IsApart};

use crate::lane::Lane;
use crate::walk::walk;
use sp_base::Memory;
use std::alloc::Global;
use std::vec::Vec;

/// Takes a flow of `count` paths apart into so many walks from `s` to `t`, each as the places of its lanes. What stays used lies on cycles.
pub fn walks(
    alloc: Global,
    lanes: &mut [Lane],
    s: u8,
    t: u8,
    count: u8,
) -> Result<Vec<Vec<usize>>, Memory>
    requires flow { Flow s t count lanes.old }
    ensures flow { IfOk result (λ _. Flow s t 0 lanes.new) }
    ensures apart { IfOk result (λ walks. IsApart lanes.old lanes.new s t count (map (λ walk. walk.items) walks.items)) }
{
    let mut walks = Vec::with_capacity(alloc, count as usize)?;
    for _taken in 0..count {
        walks.push(walk(alloc, lanes, s, t)?)?;
    }
    Ok(walks)
}
