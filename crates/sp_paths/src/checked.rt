// Whether somebody's paths are disjoint and the cheapest of their number, decided by their certificate.
ghost use Rattle.std.specs.Prelude.{◌≡◌, ◌↔◌, IsTrue};
ghost use Rattle.sp_paths.specs.Cheapest.{AreEnds};
ghost use Rattle.sp_paths.specs.Checks.{IsChecked};

use crate::apart::are_apart;
use crate::certified::is_certificate;
use crate::cheapest::is_node;
use crate::paths::Paths;
use crate::summed::is_cost;
use crate::walked::are_paths;
use sp_base::NodeId;
use sp_graph::Graph;

/// Whether they are two different nodes of the graph.
fn are_ends(graph: &Graph, s: NodeId, t: NodeId) -> bool
    ensures { IsTrue result ↔ AreEnds graph.now s t }
{
    is_node(graph, s) && is_node(graph, t) && s != t
}

/// Whether these are disjoint paths from `s` to `t` of this cost, with a certificate: then no others of their number cost less. It is decided of any
/// lists, in any order and with no path too, and takes no memory. False where an end is no node of the graph, or both are one node.
pub fn check(graph: &Graph, s: NodeId, t: NodeId, paths: &Paths) -> bool
    ensures { IsTrue result ↔ IsChecked graph.now s t paths.now }
{
    if !are_ends(graph, s, t) {
        return false;
    }
    let edges = graph.edges.as_slice();
    let set = paths.paths.as_slice();
    if !are_paths(edges, s, t, set) {
        return false;
    }
    if !are_apart(s, t, set) {
        return false;
    }
    if !is_cost(edges, set, paths.cost) {
        return false;
    }
    is_certificate(graph, s, t, paths)
}
