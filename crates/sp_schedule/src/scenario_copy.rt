// A copy of a scenario.
ghost use Rattle.std.specs.Prelude.{◌≡◌, IfOk};

use crate::{Graph, Scenario};
use sp_base::{Listed, Memory};
use std::alloc::Global;

/// The same scenario in memory of its own.
pub fn copy_of(alloc: Global, scenario: &Scenario) -> Result<Scenario, Memory>
    ensures { IfOk result (λ copied. copied ≡ scenario.now) }
{
    let edges = Vec::from_slice(alloc, scenario.graph.edges.as_slice())?;
    let bad = Vec::from_slice(alloc, scenario.bad.as_slice())?;
    Ok(Scenario {
        format: scenario.format,
        seed: scenario.seed,
        height: scenario.height,
        limits: scenario.limits,
        graph: Graph {
            nodes: scenario.graph.nodes,
            edges: Listed::from_vec(edges),
        },
        bad: Listed::from_vec(bad),
        epochs: scenario.epochs,
    })
}
