// The smallest cut as its parts.
ghost use Rattle.std.specs.Prelude.{◌≡◌, ℕ, IfOk, length};
ghost use Rattle.sp_graph.specs.Edges.{IsGraph};
ghost use Rattle.sp_paths.specs.Cheapest.{AreEnds};
ghost use Rattle.sp_paths.specs.Fewer.{AreFewer};
ghost use Rattle.sp_paths.specs.Searched.{IsFew};
ghost use Rattle.sp_paths.specs.declared.limits.TheConstants.{PARTS};

use crate::parts::{cut, parts};
use crate::search::Few;
use sp_base::{Listed, Memory, NodeId};
use sp_graph::{Graph, Part};
use std::alloc::Global;

/// The parts of the cut, in their order.
pub fn cut_found(
    alloc: Global,
    graph: &Graph,
    s: NodeId,
    t: NodeId,
    few: &Few,
) -> Result<Listed<Part>, Memory>
    requires graph { IsGraph graph.now }
    requires ends { AreEnds graph.now s t }
    requires marks { length few.now.reached ≡ PARTS }
    ensures { IfOk result (λ cut. (k : ℕ) → IsFew graph.now s t k few.now.found few.now.reached → AreFewer graph.now s t k few.now.found cut) }
{
    let parts = parts(alloc, graph, s, t)?;
    Ok(Listed::from_vec(cut(alloc, parts.as_slice(), &few.reached)?))
}
