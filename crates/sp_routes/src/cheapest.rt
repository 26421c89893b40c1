// The edges of the cheapest paths that share no node.
ghost use Rattle.std.specs.Prelude.{◌≡◌, ◌≤◌, All, IfErr, IfOk, length};
ghost use Rattle.sp_base.specs.declared.limits.TheConstants.{MAX_EDGES_2};
ghost use Rattle.sp_graph.specs.Edges.{IsGraph};
ghost use Rattle.sp_msg.specs.Masks.{bits};
ghost use Rattle.sp_routes.specs.Fewer.{SaysFewer};
ghost use Rattle.sp_paths.specs.Cheapest.{AreEnds};
ghost use Rattle.sp_paths.specs.declared.limits.TheConstants.{MAX_PATHS};
ghost use Rattle.sp_routes.specs.Joined.{HasFlag};
ghost use Rattle.sp_rules.specs.Masks.{IsChoice, Mask as Over};
ghost use Rattle.sp_rules.specs.Weights.{WeightState};

use crate::PathBook;
use crate::refused::NoMask;
use crate::union::mask_of_all;
use sp_base::NodeId;
use sp_graph::Graph;
use sp_msg::Mask;
use sp_paths::PathRefused;
use sp_topology::Edge;
use std::alloc::Global;

/// The edges of so many paths that share no node, of which no others cost less, as the book has them: by their places among all these edges, of which the
/// graph has those that aren't withdrawn.
pub fn cheapest_mask(
    book: &mut PathBook,
    alloc: Global,
    graph: &Graph,
    edges: &[Edge],
    s: NodeId,
    t: NodeId,
    count: u8,
) -> Result<Mask, NoMask>
    requires graph { IsGraph graph.now }
    requires edges { All HasFlag edges.now }
    requires few { length edges.now ≤ MAX_EDGES_2 }
    requires ends { AreEnds graph.now s t }
    requires count { (1 ≤ count) × (count ≤ MAX_PATHS) }
    ensures mask { IfOk result (λ mask. (w : WeightState) → w.edges ≡ edges.now → IsChoice w graph.now s t count (Over (bits mask))) }
    ensures fewer { IfErr result (SaysFewer graph.now s t count) }
{
    match book.get(alloc, graph, s, t, count) {
        Ok(paths) => Ok(mask_of_all(edges, paths)),
        Err(PathRefused::Fewer { found, .. }) => Err(NoMask::Fewer { found }),
        Err(PathRefused::Memory) => Err(NoMask::Memory),
        Err(PathRefused::Unknown) => unreachable!(),
        Err(PathRefused::SameEnds) => unreachable!(),
    }
}
