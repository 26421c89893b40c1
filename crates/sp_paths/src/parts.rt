// The parts of a graph in their order, the potential of each, and those that are in a cut.
ghost use Rattle.std.specs.Prelude.{◌≡◌, ◌<◌, ◌≤◌, ◌^◌, ◌++◌, ◌∷◌, [], IfOk, OnOk, length, map, pos, ℕ};
ghost use Rattle.std.specs.List.{All, filter};
ghost use Rattle.sp_base.specs.declared.limits.TheConstants.{MAX_NODES_2};
ghost use Rattle.sp_graph.specs.Split.{parts_of, stays};
ghost use Rattle.sp_paths.specs.Bounds.{most_potential};
ghost use Rattle.sp_paths.specs.Lanes.{at, is_in};
ghost use Rattle.sp_paths.specs.Parts.{node_of, number};

use crate::lanes_of::{number, stays};
use crate::limits::PARTS;
use sp_base::{Memory, NodeId};
use sp_graph::{Graph, Part};
use std::alloc::Global;
use std::vec::Vec;

/// Adds the part, where it is there between these ends.
fn push_part(parts: &mut Vec<Part>, part: Part, s: NodeId, t: NodeId) -> Result<(), Memory>
    ensures { OnOk result (parts.new.items ≡ parts.old.items ++ filter (stays s t) (part ∷ [])) }
{
    if stays(part, s, t) {
        parts.push(part)?;
    }
    Ok(())
}

/// The parts of a graph between two ends: by their nodes, the in-part first.
pub fn parts(alloc: Global, graph: &Graph, s: NodeId, t: NodeId) -> Result<Vec<Part>, Memory>
    requires few { graph.now.nodes ≤ MAX_NODES_2 }
    ensures { IfOk result (λ parts. parts.items ≡ parts_of graph.now s t) }
{
    let mut parts = Vec::with_capacity(alloc, PARTS)?;
    for place in 0..graph.nodes {
        let node = NodeId(place + 1);
        push_part(&mut parts, Part::In(node), s, t)?;
        push_part(&mut parts, Part::Out(node), s, t)?;
    }
    Ok(parts)
}

/// The potential of each part.
pub fn potentials(alloc: Global, parts: &[Part], potential: &[u64]) -> Result<Vec<i64>, Memory>
    requires parts { All (λ part. ((node_of part).0 ≤ MAX_NODES_2) × (number part < length potential.now)) parts.now }
    requires low { (v : ℕ) → at potential.now v ≤ most_potential }
    ensures { IfOk result (λ numbers. numbers.items ≡ map (λ part. pos (at potential.now (number part))) parts.now) }
{
    let mut numbers = Vec::with_capacity(alloc, parts.len())?;
    for part in parts {
        numbers.push(potential[number(*part) as usize] as i64)?;
    }
    Ok(numbers)
}

/// The parts that are reached.
pub fn cut(alloc: Global, parts: &[Part], reached: &[bool]) -> Result<Vec<Part>, Memory>
    requires parts { All (λ part. ((node_of part).0 ≤ MAX_NODES_2) × (number part < length reached.now)) parts.now }
    ensures { IfOk result (λ cut. cut.items ≡ filter (λ part. is_in reached.now (number part)) parts.now) }
{
    let mut cut = Vec::with_capacity(alloc, parts.len())?;
    for part in parts {
        if reached[number(*part) as usize] {
            cut.push(*part)?;
        }
    }
    Ok(cut)
}
