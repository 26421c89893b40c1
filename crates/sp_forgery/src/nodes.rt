// Who is correct.
ghost use Rattle.std.specs.Prelude.{◌≡◌};
ghost use Rattle.sp_runs.specs.Scenarios.{setting_of};
ghost use Rattle.sp_runs.specs.Settings.{is_correct, is_node};

use sp_base::NodeId;
use sp_schedule_events::{Scenario, is_bad};

/// Whether the node is there and follows the rules.
pub fn is_correct(scenario: &Scenario, u: NodeId) -> bool
    ensures { result ≡ is_correct (setting_of scenario.now) u }
{
    is_node(scenario, u) && !is_bad(scenario, u)
}

/// Whether the header has the node: those of 1 to its number of nodes.
#[tactic(auto, using(crate::proofs::Numbered::is_numbered, crate::proofs::Numbered::is_below, crate::proofs::Numbered::is_above))]
fn is_node(scenario: &Scenario, u: NodeId) -> bool
    ensures { result ≡ is_node (setting_of scenario.now) u }
{
    1 <= u.0 && u.0 <= scenario.graph.nodes
}
