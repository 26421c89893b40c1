// The cheapest disjoint paths between two nodes of a graph.
ghost use Rattle.std.specs.Prelude.{◌≡◌, ◌≤◌, ◌↔◌, IfErr, IfOk, IsTrue};
ghost use Rattle.sp_graph.specs.Edges.{IsGraph};
ghost use Rattle.sp_paths.specs.Cheapest.{AreCheapest, AreEnds, AreLeast, IsNode};
ghost use Rattle.sp_paths.specs.Fewer.{SaysFewer};
ghost use Rattle.sp_paths.specs.Searched.{IsFound};
ghost use Rattle.sp_paths.specs.declared.limits.TheConstants.{MAX_PATHS};

use crate::fewer::cut_found;
use crate::found::paths_found;
use crate::paths::Paths;
use crate::refused::PathRefused;
use crate::search::{Found, Searched, search};
use sp_base::{Listed, NodeId};
use sp_graph::Graph;
use std::alloc::Global;

/// Whether it is a node of the graph.
pub fn is_node(graph: &Graph, node: NodeId) -> bool
    ensures { IsTrue result ↔ IsNode graph.now node }
{
    1 <= node.0 && node.0 <= graph.nodes
}

/// The cheapest `k` paths from `s` to `t` that share no node but these and no edge, in lexical order, with their cost and the potentials that prove that
/// no others cost less (docs/RULES.md, "Disjoint paths").
///
/// `Unknown` exactly where an end is no node of the graph, and `SameEnds` exactly where both are one node: this is seen before memory is taken.
/// `Fewer` only where there are no `k` such paths: how many there are, with the smallest cut that so many arcs leave. `Memory` may come in place of both.
pub fn disjoint(
    alloc: Global,
    graph: &Graph,
    s: NodeId,
    t: NodeId,
    k: u8,
) -> Result<Paths, PathRefused>
    requires graph { IsGraph graph.now }
    requires count { (1 ≤ k) × (k ≤ MAX_PATHS) }
    ensures found { IfOk result (AreCheapest graph.now s t k) }
    ensures unknown { (result ≡ Err PathRefused.Unknown) ↔ (¬ (IsNode graph.now s × IsNode graph.now t)) }
    ensures same { (result ≡ Err PathRefused.SameEnds) ↔ (IsNode graph.now s × (s ≡ t)) }
    ensures fewer { IfErr result (SaysFewer graph.now s t k) }
{
    let found = found(alloc, graph, s, t, k)?;
    Ok(paths_found(alloc, graph, s, t, k, found)?)
}

/// The paths of `disjoint` alone, for a caller who asks for neither their cost nor the proof that no others cost less. It is refused as `disjoint` is.
pub fn disjoint_paths(
    alloc: Global,
    graph: &Graph,
    s: NodeId,
    t: NodeId,
    k: u8,
) -> Result<Listed<Listed<NodeId>>, PathRefused>
    requires graph { IsGraph graph.now }
    requires count { (1 ≤ k) × (k ≤ MAX_PATHS) }
    ensures found { IfOk result (AreLeast graph.now s t k) }
    ensures unknown { (result ≡ Err PathRefused.Unknown) ↔ (¬ (IsNode graph.now s × IsNode graph.now t)) }
    ensures same { (result ≡ Err PathRefused.SameEnds) ↔ (IsNode graph.now s × (s ≡ t)) }
    ensures fewer { IfErr result (SaysFewer graph.now s t k) }
{
    let found = found(alloc, graph, s, t, k)?;
    Ok(found.paths)
}

/// What a search finds, or why it finds nothing.
fn found(alloc: Global, graph: &Graph, s: NodeId, t: NodeId, k: u8) -> Result<Found, PathRefused>
    requires graph { IsGraph graph.now }
    requires few { k ≤ MAX_PATHS }
    ensures ends { IfOk result (λ _. AreEnds graph.now s t) }
    ensures found { IfOk result (λ found. IsFound graph.now s t k found.paths found.potential) }
    ensures unknown { (result ≡ Err PathRefused.Unknown) ↔ (¬ (IsNode graph.now s × IsNode graph.now t)) }
    ensures same { (result ≡ Err PathRefused.SameEnds) ↔ (IsNode graph.now s × (s ≡ t)) }
    ensures fewer { IfErr result (SaysFewer graph.now s t k) }
{
    if !is_node(graph, s) || !is_node(graph, t) {
        return Err(PathRefused::Unknown);
    }
    if s == t {
        return Err(PathRefused::SameEnds);
    }
    match search(alloc, graph, s, t, k)? {
        Searched::Found(found) => Ok(found),
        Searched::Few(few) => {
            let cut = cut_found(alloc, graph, s, t, &few)?;
            Err(PathRefused::Fewer {
                found: few.found,
                cut,
            })
        }
    }
}
