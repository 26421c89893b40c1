// Which documents may come next: while the administrator has an index, and no removed node comes back.
ghost use Rattle.std.specs.Prelude.{◌≡◌, ◌==◌, ◌&&◌, not, zip};
ghost use Rattle.std.specs.List.{list_any};
ghost use Rattle.sp_rules.specs.Topologies.{is_end, is_removed, under};
ghost use Rattle.sp_schedule_events.specs.Documents.{comes_back, documents, has_back, has_index, has_weights, may_craft, may_publish, none_comes_back};

use crate::{Edge, LmsHeight, Published, Scenario};
use sp_base::{Listed, NodeId};

/// Whether this may be published after what was.
pub fn may_publish(
    scenario: &Scenario,
    published: &Published,
    weights: &Option<Listed<u32>>,
) -> bool
    ensures { result ≡ may_publish scenario.now published.now weights.now }
{
    let Some(weights) = weights else {
        return published.weights.is_some();
    };
    u64::from(published.version) < documents(scenario.height)
        && none_comes_back(
            scenario.graph.edges.as_slice(),
            &published.weights,
            weights.as_slice(),
        )
}

/// Whether such a document may be crafted.
pub fn may_craft(
    scenario: &Scenario,
    published: &Published,
    key: u8,
    version: u32,
    weights: &Option<Listed<u32>>,
) -> bool
    ensures { result ≡ may_craft scenario.now published.now key version weights.now }
{
    has_index(scenario.height, key, version) && has_weights(published, weights)
}

/// Whether there are weights: of its own, or the last that were published.
fn has_weights(published: &Published, weights: &Option<Listed<u32>>) -> bool
    ensures { result ≡ has_weights published.now weights.now }
{
    match weights {
        Some(_) => true,
        None => published.weights.is_some(),
    }
}

/// Whether a key has an index for a version: the administrator's signs so many.
fn has_index(height: LmsHeight, key: u8, version: u32) -> bool
    ensures { result ≡ has_index height key version }
{
    key != 0 || u64::from(version) <= documents(height)
}

/// How many documents the administrator's key signs.
fn documents(height: LmsHeight) -> u64
    ensures { result ≡ documents height }
{
    1 << (2 * height.number())
}

/// Whether no node that the last list removed comes back.
fn none_comes_back(edges: &[Edge], old: &Option<Listed<u32>>, new: &[u32]) -> bool
    ensures { result ≡ none_comes_back edges.now old.now new.now }
{
    match old {
        Some(old) => !any_comes_back(edges, old.as_slice(), new),
        None => true,
    }
}

fn any_comes_back(edges: &[Edge], old: &[u32], new: &[u32]) -> bool
    ensures { result ≡ list_any (has_back (under edges.now old.now) (under edges.now new.now)) edges.now }
{
    edges.iter().any(|edge| {
        comes_back(edges, old, new, edge.low) || comes_back(edges, old, new, edge.high)
    })
}

fn comes_back(edges: &[Edge], old: &[u32], new: &[u32], u: NodeId) -> bool
    ensures { result ≡ comes_back (under edges.now old.now) (under edges.now new.now) u.0 }
{
    is_removed(edges, old, u) && !is_removed(edges, new, u)
}

/// Whether the weights remove a node: it has an edge, and all its edges are withdrawn.
fn is_removed(edges: &[Edge], weights: &[u32], u: NodeId) -> bool
    ensures { result ≡ is_removed (under edges.now weights.now) u.0 }
{
    has_edge(edges, weights, u) && !has_open_edge(edges, weights, u)
}

fn has_edge(edges: &[Edge], weights: &[u32], u: NodeId) -> bool
    ensures { result ≡ list_any (λ p. is_end u.0 p.0) (zip edges.now weights.now) }
{
    edges
        .iter()
        .zip(weights.iter())
        .any(|(edge, _)| is_end(edge, u))
}

fn has_open_edge(edges: &[Edge], weights: &[u32], u: NodeId) -> bool
    ensures { result ≡ list_any (λ p. is_end u.0 p.0 && not (p.1 == 0)) (zip edges.now weights.now) }
{
    edges
        .iter()
        .zip(weights.iter())
        .any(|(edge, weight)| is_end(edge, u) && *weight != 0)
}

fn is_end(edge: &Edge, u: NodeId) -> bool
    ensures { result ≡ is_end u.0 edge.now }
{
    edge.low == u || edge.high == u
}
