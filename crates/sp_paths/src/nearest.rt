// The residual arc out of what is reached whose reduced cost is the least.
ghost use Rattle.std.specs.Prelude.{◌≡◌, ◌<◌, ◌≤◌, ◌+◌, ◌^◌, ◌↔◌, ℕ, IfSome, IsTrue, length};
ghost use Rattle.sp_paths.specs.Lanes.{AreWithin, Best, FitAll, Fits, Gap, IsLow, IsWithin, at, is_in, raised};

use crate::lane::{Lane, head, tail};

/// The reduced cost of the residual arc, where it leads out of what is reached.
fn gap(lane: Lane, potential: &[u64], reached: &[bool]) -> Option<u64>
    requires parts { IsWithin (length potential.now) lane }
    requires lengths { length reached.now ≡ length potential.now }
    requires fits { Fits (at potential.now) lane }
    requires low { IsLow potential.now }
    ensures { Gap (at potential.now) (is_in reached.now) lane result }
{
    if !reached[tail(lane) as usize] || reached[head(lane) as usize] {
        return None;
    }
    let along = lane.cost as u64 + potential[lane.from as usize];
    let end = potential[lane.to as usize];
    Some(if lane.used { end - along } else { along - end })
}

/// The residual arc that leads out at the least reduced cost, by the place of its lane. None exactly where none leads out.
pub fn nearest(lanes: &[Lane], potential: &[u64], reached: &[bool]) -> Option<(usize, u64)>
    requires parts { AreWithin (length potential.now) lanes.now }
    requires lengths { length reached.now ≡ length potential.now }
    requires fits { FitAll (at potential.now) lanes.now }
    requires low { IsLow potential.now }
    ensures { Best (at potential.now) (is_in reached.now) lanes.now (length lanes.now) result }
{
    let mut best: Option<(usize, u64)> = None;
    for i in 0..lanes.len() {
        if let Some(gap) = gap(lanes[i], potential, reached) {
            if gap == 0 {
                return Some((i, 0));
            }
            if is_nearer(best, gap) {
                best = Some((i, gap));
            }
        }
    }
    best
}

/// Whether a gap is below that of the best so far.
fn is_nearer(best: Option<(usize, u64)>, gap: u64) -> bool
    ensures { IsTrue result ↔ IfSome best (λ found. gap < found.1) }
{
    match best {
        Some((_place, least)) => gap < least,
        None => true,
    }
}

/// Raises the potential of each part that isn't reached.
pub fn raise(potential: &mut [u64], reached: &[bool], gap: u64)
    requires lengths { length reached.now ≡ length potential.old }
    requires room { (v : ℕ) → at potential.old v + gap < 2 ^ 64 }
    ensures lengths { length potential.new ≡ length potential.old }
    ensures raised { (v : ℕ) → at potential.new v ≡ raised (is_in reached.now) gap (at potential.old) v }
{
    for v in 0..potential.len() {
        if !reached[v] {
            potential[v] += gap;
        }
    }
}
