// Whether nodes are a path that a flow may go.
ghost use Rattle.std.specs.Prelude.{◌≡◌, ◌≢◌, ◌↔◌, ◌==◌, ◌<◌, ◌≤◌, IsTrue, length};
ghost use Rattle.std.specs.List.{All, AllPairs, list_any};
ghost use Rattle.sp_base.specs.declared.id.NodeId.{NodeId};
ghost use Rattle.sp_graph.specs.Walks.{Joined, is_between, steps};
ghost use Rattle.sp_rules.specs.declared.store.TheConstants.{IDS};
ghost use Rattle.sp_runs.specs.Paths.{IsCorrectPath, graph_in};
ghost use Rattle.sp_runs.specs.Scenarios.{setting_of};
ghost use Rattle.sp_runs.specs.Settings.{is_correct};

use crate::correct::is_correct;
use sp_base::NodeId;
use sp_schedule_events::{Edge, Scenario};

/// Whether they are a path of correct nodes from the first to the last, at least two.
pub fn is_path(scenario: &Scenario, path: &[NodeId]) -> bool
    ensures long { IsTrue result → 2 ≤ length path.now }
    ensures short { IsTrue result → length path.now ≤ IDS }
    ensures holds { IsTrue result ↔ ((s : NodeId) × (d : NodeId) × IsCorrectPath (setting_of scenario.now) s d path.now) }
{
    if path.len() < 2 {
        return false;
    }
    if !are_correct(scenario, path) {
        return false;
    }
    if !are_joined(scenario, path) {
        return false;
    }
    recall(scenario);
    are_apart(path)
}

/// Nodes have numbers of one byte, so no path is longer than these. This only tells the prover so.
fn recall(scenario: &Scenario)
    ensures { scenario.now.graph.nodes < IDS }
{
    let _nodes = scenario.graph.nodes;
}

fn are_correct(scenario: &Scenario, path: &[NodeId]) -> bool
    ensures { IsTrue result ↔ All (λ u. IsTrue (is_correct (setting_of scenario.now) u)) path.now }
{
    'nodes: for place in 0..path.len() {
        if !is_correct(scenario, path[place]) {
            return false;
        }
    }
    true
}

/// Whether an edge joins each to the next.
fn are_joined(scenario: &Scenario, path: &[NodeId]) -> bool
    ensures { IsTrue result ↔ All (Joined (graph_in (setting_of scenario.now))) (steps path.now) }
{
    'nodes: for place in 1..path.len() {
        if !is_joined(scenario, path[place - 1], path[place]) {
            return false;
        }
    }
    true
}

fn is_joined(scenario: &Scenario, u: NodeId, v: NodeId) -> bool
    ensures { result ≡ list_any (is_between u v) scenario.now.graph.edges }
{
    let edges = scenario.graph.edges.as_slice();
    edges.iter().any(|e| is_between(u, v, e))
}

fn is_between(u: NodeId, v: NodeId, edge: &Edge) -> bool
    ensures { result ≡ is_between u v edge.now }
{
    (edge.low == u && edge.high == v) || (edge.low == v && edge.high == u)
}

/// Whether no node stands twice.
fn are_apart(path: &[NodeId]) -> bool
    ensures { IsTrue result ↔ AllPairs (λ u v. u ≢ v) path.now }
{
    'nodes: for place in 0..path.len() {
        if is_among(path[place], &path[..place]) {
            return false;
        }
    }
    true
}

fn is_among(u: NodeId, nodes: &[NodeId]) -> bool
    ensures { result ≡ list_any (λ v. v.0 == u.0) nodes.now }
{
    nodes.iter().any(|v| v.0 == u.0)
}
