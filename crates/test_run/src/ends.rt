// Ends between which there are no paths to speak of: `Unknown` comes before `SameEnds`.
ghost use Rattle.std.specs.Prelude.{◌≤◌};
ghost use Rattle.sp_graph.specs.Edges.{IsGraph};
ghost use Rattle.sp_paths.specs.declared.limits.TheConstants.{MAX_PATHS};

use crate::asked::graph_of;
use sp_base::NodeId;
use sp_graph::Graph;
use sp_paths::{PathRefused, disjoint};
use std::alloc::Global;
use std::test::Fail;

const GRAPH: &str = "graph 1\nnodes 3\nedge 1 2 1\nedge 2 3 1\nend\n";

/// Two ends, how many paths, and the answer: 0 found, 1 unknown, 2 same ends.
const ENDS: [(u8, u8, u8, u8); 11] = [
    (1, 3, 1, 0),
    (0, 3, 1, 1),
    (1, 0, 1, 1),
    (4, 1, 2, 1),
    (3, 4, 8, 1),
    (255, 1, 1, 1),
    (0, 0, 1, 1),
    (4, 4, 1, 1),
    (255, 255, 8, 1),
    (1, 1, 1, 2),
    (3, 3, 8, 2),
];

/// The answer by its number; 3 is another.
fn answer(alloc: Global, graph: &Graph, s: u8, t: u8, k: u8) -> u8
    requires graph { IsGraph graph.now }
    requires count { (1 ≤ k) × (k ≤ MAX_PATHS) }
{
    match disjoint(alloc, graph, NodeId(s), NodeId(t), k) {
        Ok(_) => 0,
        Err(PathRefused::Unknown) => 1,
        Err(PathRefused::SameEnds) => 2,
        Err(_) => 3,
    }
}

#[test]
fn ends_are_two_nodes_of_the_graph(rt: HostRuntime) -> Result<(), Fail> {
    let graph = graph_of(rt.alloc(), GRAPH)?;
    for (s, t, k, wanted) in ENDS {
        let answer = answer(rt.alloc(), &graph, s, t, k.clamp(1, 8));
        assert!(rt; answer == wanted, "{s} {t}");
    }
    Ok(())
}
