// Path after path, each by a tree from the source that is grown until it reaches the destination.
ghost use Rattle.std.specs.Prelude.{◌≡◌, ◌<◌, ◌≤◌, ℕ, IfOk, length, map};
ghost use Rattle.sp_paths.specs.Flows.{bare};
ghost use Rattle.sp_paths.specs.Lanes.{at};
ghost use Rattle.sp_paths.specs.Routes.{IsRouted, IsUnused};
ghost use Rattle.sp_paths.specs.Trees.{IsReady, IsStart};
ghost use Rattle.sp_paths.specs.declared.limits.TheConstants.{MAX_PATHS};

use crate::augment::augment;
use crate::grow::grow;
use crate::lane::Lane;
use sp_base::Memory;
use std::alloc::Global;

/// How a search ends: with all the paths that were asked for, or with so many, and no more are there.
#[derive(Clone, Copy, Debug, PartialEq, Eq)]
pub enum Routed {
    All,
    Only(u8),
}

/// The source alone is reached.
fn start(reached: &mut [bool], s: u8)
    requires there { s < length reached.old }
    ensures same { length reached.new ≡ length reached.old }
    ensures start { IsStart s reached.new }
{
    reached.fill(false);
    reached[s as usize] = true;
}

/// Sends `count` paths from `s` to `t` along the lanes, or as many as there are.
pub fn route(
    alloc: Global,
    lanes: &mut [Lane],
    potential: &mut [u64],
    reached: &mut [bool],
    s: u8,
    t: u8,
    count: u8,
) -> Result<Routed, Memory>
    requires ready { IsReady s lanes.old potential.old }
    requires zero { (v : ℕ) → at potential.old v ≡ 0 }
    requires unused { IsUnused lanes.old }
    requires lengths { length reached.old ≡ length potential.old }
    requires there { t < length potential.old }
    requires few { count ≤ MAX_PATHS }
    ensures same { IfOk result (λ _. map bare lanes.new ≡ map bare lanes.old) }
    ensures lengths { IfOk result (λ _. (length potential.new ≡ length potential.old) × (length reached.new ≡ length reached.old)) }
    ensures routed { IfOk result (IsRouted s t count lanes.new potential.new reached.new) }
{
    for round in 0..count {
        start(reached, s);
        match grow(alloc, lanes, potential, reached, s, t)? {
            Some(tree) => augment(lanes, tree.as_slice(), s, t),
            None => return Ok(Routed::Only(round)),
        }
    }
    Ok(Routed::All)
}
