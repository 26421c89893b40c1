// One path more: the lanes of a tree are turned round, from the destination back to the source.
ghost use Rattle.std.specs.Prelude.{◌≡◌, ◌⊎◌, ◌+◌, ℕ, length, map};
ghost use Rattle.sp_paths.specs.Flows.{Flow, bare};
ghost use Rattle.sp_paths.specs.Lanes.{FitAll};
ghost use Rattle.sp_paths.specs.Trees.{AreTight, IsTree, Reaches};

use crate::lane::{Lane, flipped, head, tail};

/// Turns round the lanes of the tree that lead from `s` to `t`: what was free is used, and what was used is free.
pub fn augment(lanes: &mut [Lane], tree: &[usize], s: u8, t: u8)
    requires tree { IsTree s lanes.old tree.now }
    requires reached { (t ≡ s) ⊎ Reaches lanes.old tree.now (length tree.now) t }
    ensures same { map bare lanes.new ≡ map bare lanes.old }
    ensures fits { (p : ℕ → ℕ) → AreTight p lanes.old tree.now → FitAll p lanes.old → FitAll p lanes.new }
    ensures flow { (r : ℕ) → Flow s t r lanes.old → Flow s t (r + 1) lanes.new }
{
    let mut here = t;
    let mut k = tree.len();
    'back: while here != s {
        k -= 1;
        let place = tree[k];
        if head(lanes[place]) == here {
            here = tail(lanes[place]);
            lanes[place] = flipped(lanes[place]);
        }
    }
}
