// What is asked of a graph: some paths, whole and alone. Each answer is accepted by `check`, and none that was moved.
ghost use Rattle.std.specs.Prelude.{◌≤◌, IfOk};
ghost use Rattle.sp_graph.specs.Edges.{IsGraph};
ghost use Rattle.sp_paths.specs.declared.limits.TheConstants.{MAX_PATHS};

use sp_base::{Listed, MAX_INPUT_BYTES, NodeId};
use sp_graph::{Graph, read};
use sp_paths::{PathRefused, Paths, check, disjoint, disjoint_paths};
use std::alloc::Global;
use std::process::Abort;
use std::test::Fail;

/// Further than any sum of weights.
const FAR: i64 = 1 << 40;

/// The graph of the text.
#[tactic(auto, using(sp_graph::proofs::GraphLemmas::graph_of_any))]
pub(crate) fn graph_of(alloc: Global, text: &str) -> Result<Graph, Fail>
    ensures { IfOk result IsGraph }
{
    if text.len() > MAX_INPUT_BYTES {
        return Err("the text is too long".into());
    }
    match read(alloc, text.as_bytes()) {
        Ok(graph) => Ok(graph),
        Err(_) => Err("the text is no graph".into()),
    }
}

/// The next number below the bound, by a linear congruence.
pub(crate) fn next(seed: &mut u64, bound: u32) -> u32 {
    *seed = seed
        .wrapping_mul(6_364_136_223_846_793_005)
        .wrapping_add(1_442_695_040_888_963_407);
    ((*seed >> 33) % u64::from(bound.max(1))) as u32
}

/// Whether the paths are accepted with another cost.
fn accepts_cost(graph: &Graph, s: NodeId, t: NodeId, paths: &mut Paths, cost: u64) -> bool {
    let kept = paths.cost;
    paths.cost = cost;
    let accepted = check(graph, s, t, paths);
    paths.cost = kept;
    accepted
}

/// Whether the paths are accepted with one potential moved.
fn accepts_moved(
    graph: &Graph,
    s: NodeId,
    t: NodeId,
    paths: &mut Paths,
    place: usize,
    far: i64,
) -> bool {
    if place >= paths.potentials.as_slice().len() {
        return true;
    }
    let kept = paths.potentials.as_slice()[place];
    paths.potentials.as_mut_slice()[place] = kept.wrapping_add(far);
    let accepted = check(graph, s, t, paths);
    if place < paths.potentials.as_slice().len() {
        paths.potentials.as_mut_slice()[place] = kept;
    }
    accepted
}

/// The answer is accepted, and none that differs by one in its cost. Each part has an arc, which falls below 0 where the part's potential is moved far one way.
fn judge(rt: &impl Abort, graph: &Graph, s: NodeId, t: NodeId, paths: &mut Paths, seed: &mut u64) {
    assert!(rt; check(graph, s, t, paths), "the answer");
    let cost = paths.cost;
    assert!(rt;
        !accepts_cost(graph, s, t, paths, cost.wrapping_add(1)),
        "one more"
    );
    assert!(rt;
        !accepts_cost(graph, s, t, paths, cost.wrapping_sub(1)),
        "one less"
    );
    let place = next(seed, 32) as usize % paths.potentials.as_slice().len().max(1);
    let up = accepts_moved(graph, s, t, paths, place, FAR);
    let down = accepts_moved(graph, s, t, paths, place, -FAR);
    assert!(rt; !(up && down), "a potential moved");
    assert!(rt; check(graph, s, t, paths), "as it was");
}

/// Whether the answer has just these paths.
fn are_same(answer: &Paths, alone: &[Listed<NodeId>]) -> bool {
    let paths = answer.paths.as_slice();
    paths.len() == alone.len()
        && paths
            .iter()
            .zip(alone)
            .all(|(path, other)| path.as_slice() == other.as_slice())
}

/// Asks for some paths of the graph, whole and alone. Gives whether they are there.
pub(crate) fn ask(
    rt: &(impl Abort + AllocGlobal),
    graph: &Graph,
    s: NodeId,
    t: NodeId,
    k: u8,
    seed: &mut u64,
) -> Result<bool, Fail>
    requires graph { IsGraph graph.now }
    requires count { (1 ≤ k) × (k ≤ MAX_PATHS) }
{
    match disjoint(rt.alloc(), graph, s, t, k) {
        Ok(mut paths) => {
            let alone = disjoint_paths(rt.alloc(), graph, s, t, k)?;
            assert!(rt; are_same(&paths, alone.as_slice()), "the paths alone");
            judge(rt, graph, s, t, &mut paths, seed);
            Ok(true)
        }
        Err(PathRefused::Fewer { .. }) => Ok(false),
        Err(_) => Err("the ends are two nodes".into()),
    }
}
