// Who follows the rules, as the header says it.
ghost use Rattle.std.specs.Prelude.{◌≡◌};
ghost use Rattle.sp_runs.specs.Scenarios.{setting_of};
ghost use Rattle.sp_runs.specs.Settings.{is_correct};

use sp_base::NodeId;
use sp_schedule_events::{Scenario, is_bad};

/// Whether the node is there and isn't compromised.
#[tactic(auto, using(crate::proofs::Nodes::node_is))]
pub fn is_correct(scenario: &Scenario, id: NodeId) -> bool
    ensures { result ≡ is_correct (setting_of scenario.now) id }
{
    (1 <= id.0 && id.0 <= scenario.graph.nodes) && !is_bad(scenario, id)
}
