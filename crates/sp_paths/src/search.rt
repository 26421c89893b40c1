// The search for disjoint paths, from the graph to the paths or to the cut.
ghost use Rattle.std.specs.Prelude.{◌≡◌, ◌≢◌, ◌≤◌, IfOk, map};
ghost use Rattle.sp_graph.specs.Edges.{IsGraph};
ghost use Rattle.sp_paths.specs.Answers.{IsSearched};
ghost use Rattle.sp_paths.specs.declared.limits.TheConstants.{MAX_PATHS};

use crate::lane::Lane;
use crate::lanes_of::lanes_of;
use crate::limits::PARTS;
use crate::nodes_of::paths_of;
use crate::route::{Routed, route};
use crate::walks::walks;
use sp_base::{Listed, Memory, NodeId};
use sp_graph::Graph;
use std::alloc::Global;

/// Paths, each as its nodes, and the potential of each part by its number.
#[derive(Debug, Drop)]
pub struct Found {
    pub paths: Listed<Listed<NodeId>>,
    pub potential: [u64; PARTS],
}

/// How many paths there are, and which parts are in the smallest cut, by their numbers.
#[derive(Clone, Copy, Debug)]
pub struct Few {
    pub found: u8,
    pub reached: [bool; PARTS],
}

/// How a search ends.
#[derive(Debug, Drop)]
pub enum Searched {
    Found(Found),
    Few(Few),
}

/// Searches for `count` disjoint paths that cost the least.
pub fn search(
    alloc: Global,
    graph: &Graph,
    s: NodeId,
    t: NodeId,
    count: u8,
) -> Result<Searched, Memory>
    requires graph { IsGraph graph.now }
    requires ends { (s.0 ≤ graph.now.nodes) × (t.0 ≤ graph.now.nodes) × (s ≢ t) }
    requires few { count ≤ MAX_PATHS }
    ensures { IfOk result (IsSearched graph.now s t count) }
{
    let mut lanes = lanes_of(alloc, graph, s, t)?;
    let mut potential = [0u64; PARTS];
    let mut reached = [false; PARTS];
    let (from, to) = (2 * s.0 + 1, 2 * t.0);
    let slots: &mut [Lane] = lanes.as_mut_slice();
    match route(alloc, slots, &mut potential, &mut reached, from, to, count)? {
        Routed::All => {
            let taken = walks(alloc, slots, from, to, count)?;
            let paths = paths_of(alloc, slots, taken.as_slice(), s)?;
            Ok(Searched::Found(Found { paths, potential }))
        }
        Routed::Only(found) => Ok(Searched::Few(Few { found, reached })),
    }
}
