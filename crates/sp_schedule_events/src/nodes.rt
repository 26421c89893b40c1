// What a line asks of its scenario: any node of it, a correct one, and whether it has documents and flows on paths.
ghost use Rattle.std.specs.Prelude.{◌≡◌};
ghost use Rattle.sp_base.specs.Refusals.{Gives};
ghost use Rattle.sp_lines.specs.Cells.{number_at, tested_at};
ghost use Rattle.sp_schedule_events.specs.Scenarios.{has_documents, has_paths, is_bad, is_correct};

use crate::Scenario;
use sp_base::{FORMAT_1, NodeId};
use sp_lines::{Fault, ranged};

/// Whether the scenario names the node as compromised.
pub fn is_bad(scenario: &Scenario, id: NodeId) -> bool
    ensures { result ≡ is_bad scenario.now id.0 }
{
    scenario.bad.as_slice().iter().any(|bad| bad.0 == id.0)
}

/// A node of the scenario.
pub fn node(scenario: &Scenario, word: &[u8]) -> Result<NodeId, Fault>
    ensures { Gives (λ id. id.0) result (number_at 1 scenario.now.graph.nodes word.now) }
{
    let n = ranged(word, 1, u64::from(scenario.graph.nodes))?;
    Ok(NodeId(n as u8))
}

/// A correct node of the scenario.
#[tactic(auto, unfolding(sp_lines::specs::Cells::tested_at))]
pub fn correct(scenario: &Scenario, word: &[u8]) -> Result<NodeId, Fault>
    ensures { Gives (λ id. id.0) result (tested_at 1 scenario.now.graph.nodes (is_correct scenario.now) word.now) }
{
    let id = node(scenario, word)?;
    if is_bad(scenario, id) {
        return Err(Fault::Range);
    }
    Ok(id)
}

/// Whether the administrator signs documents: in format 2.
pub fn has_documents(scenario: &Scenario) -> bool
    ensures { result ≡ has_documents scenario.now }
{
    scenario.format != FORMAT_1
}

/// Whether there are flows on paths: in format 2.
pub fn has_paths(scenario: &Scenario) -> bool
    ensures { result ≡ has_paths scenario.now }
{
    scenario.format != FORMAT_1
}
