// The checker that a node starts with.
ghost use Rattle.std.specs.Prelude.{◌≡◌, IfErr, IfOk};

use sp_base::Memory;
use sp_node_state::State;
use sp_rules::NodeRefused;
use sp_sign::Checker;
use std::alloc::Global;

/// A checker for the nodes of this node's topology. It is refused for want of memory alone.
pub fn checker_for(alloc: Global, state: &State) -> Result<Checker, NodeRefused>
    ensures checker { IfOk result (λ checker. checker ≡ record { nodes = state.entry.now.fixed.topology.nodes; checks = 0 }) }
    ensures memory { IfErr result (λ refused. refused ≡ NodeRefused.Memory) }
{
    match Checker::make(alloc, &state.fixed.topology) {
        Ok(checker) => Ok(checker),
        Err(Memory) => Err(NodeRefused::Memory),
    }
}
