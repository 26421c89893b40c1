// The edges that an own message takes to its destination.
ghost use Rattle.std.specs.Prelude.{◌≡◌, ◌≢◌, ◌≤◌, ℕ, IfErr, IfOk, IsOk, length, true};
ghost use Rattle.sp_base.specs.declared.limits.TheConstants.{MAX_EDGES_2, MAX_WEIGHT};
ghost use Rattle.sp_msg.specs.Masks.{bits};
ghost use Rattle.sp_routes.specs.Fewer.{SaysFewer};
ghost use Rattle.sp_paths.specs.declared.limits.TheConstants.{MAX_PATHS};
ghost use Rattle.sp_rules.specs.Masks.{IsChoice, Mask as Over, graph_of, open_edges};
ghost use Rattle.sp_rules.specs.Parts.{nodes_of};
ghost use Rattle.sp_rules.specs.Prio.{is_node};
ghost use Rattle.sp_rules.specs.Weights.{effective};
ghost use Rattle.sp_rules.specs.Topologies.{IsRunnable};

use crate::PathBook;
use crate::cheapest::cheapest_mask;
use crate::refused::NoMask;
use crate::weighed::graph_of;
use sp_base::{EdgeId, NodeId};
use sp_msg::Mask;
use sp_topology::Topology;
use sp_weights::Weights;
use std::alloc::Global;

/// The mask of the edges that aren't withdrawn.
fn open_edges(weights: &Weights) -> Mask
    ensures { bits result ≡ open_edges 0 weights.now.least }
{
    let mut mask = Mask::none();
    'edges: for place in 0..weights.edges() {
        let edge = EdgeId(place as u16);
        if !weights.is_withdrawn(edge) {
            mask = mask.with(Mask::of(edge));
        }
    }
    mask
}

/// The edges that a message from one node to another takes under the weights that are in effect: those of so many paths that share no node,
/// of which no others cost less. 0 paths mean all edges that aren't withdrawn, and no memory is taken then. The book keeps the paths for the next call under
/// these weights.
///
/// `Fewer` only where there are no so many paths: how many there are. `Memory` may come in place of both.
pub fn mask_to(
    book: &mut PathBook,
    alloc: Global,
    topology: &Topology,
    weights: &Weights,
    from: NodeId,
    to: NodeId,
    paths: u8,
) -> Result<Mask, NoMask>
    requires topology { IsRunnable topology.now }
    requires edges { weights.now.edges ≡ topology.now.edges }
    requires small { (edge : ℕ) → effective weights.now edge ≤ MAX_WEIGHT }
    requires ends { (is_node (nodes_of topology.now) from.0 ≡ true) × (is_node (nodes_of topology.now) to.0 ≡ true) × (from ≢ to) }
    requires few { paths ≤ MAX_PATHS }
    ensures mask { IfOk result (λ mask. IsChoice weights.now (graph_of topology.now weights.now) from to paths (Over (bits mask))) }
    ensures fewer { IfErr result (SaysFewer (graph_of topology.now weights.now) from to paths) }
    ensures none { paths ≡ 0 → IsOk result }
{
    if paths == 0 {
        return Ok(open_edges(weights));
    }
    let graph = graph_of(alloc, topology, weights)?;
    cheapest_mask(
        book,
        alloc,
        &graph,
        topology.edges.as_slice(),
        from,
        to,
        paths,
    )
}
