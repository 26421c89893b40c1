// The paths of a search as its callers see them.
ghost use Rattle.std.specs.Prelude.{◌≤◌, IfOk};
ghost use Rattle.sp_graph.specs.Edges.{IsGraph};
ghost use Rattle.sp_paths.specs.Cheapest.{AreCheapest, AreEnds};
ghost use Rattle.sp_paths.specs.Searched.{IsFound};
ghost use Rattle.sp_paths.specs.declared.limits.TheConstants.{MAX_PATHS};

use crate::costs::cost;
use crate::parts::{parts, potentials};
use crate::paths::Paths;
use crate::search::Found;
use sp_base::{Listed, Memory, NodeId};
use sp_graph::Graph;
use std::alloc::Global;

/// The paths with their cost and their certificate.
pub fn paths_found(
    alloc: Global,
    graph: &Graph,
    s: NodeId,
    t: NodeId,
    count: u8,
    found: Found,
) -> Result<Paths, Memory>
    requires graph { IsGraph graph.now }
    requires ends { AreEnds graph.now s t }
    requires few { count ≤ MAX_PATHS }
    requires found { IsFound graph.now s t count found.paths found.potential }
    ensures { IfOk result (AreCheapest graph.now s t count) }
{
    let parts = parts(alloc, graph, s, t)?;
    let numbers = potentials(alloc, parts.as_slice(), &found.potential)?;
    let cost = cost(graph.edges.as_slice(), found.paths.as_slice());
    Ok(Paths {
        paths: found.paths,
        cost,
        potentials: Listed::from_vec(numbers),
    })
}
