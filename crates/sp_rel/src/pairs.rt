// The flows of a network: each ordered pair of two nodes.
ghost use Rattle.std.specs.Prelude.{◌≡◌, ◌++◌, IfOk, OnOk};
ghost use Rattle.sp_rules.specs.Rel.{flows_from, pairs_of};

use sp_base::{Flow, Memory, NodeId};
use std::alloc::Global;

/// The ordered pairs of two of these nodes, in their order.
pub(crate) fn pairs_of(alloc: Global, nodes: &[NodeId]) -> Result<Vec<Flow>, Memory>
    ensures { IfOk result (λ pairs. pairs.items ≡ pairs_of nodes.now) }
{
    let mut pairs = Vec::new(alloc);
    'sources: for src in nodes {
        push_flows_from(&mut pairs, *src, nodes)?;
    }
    Ok(pairs)
}

/// Appends the flows from a node to each other one.
fn push_flows_from(pairs: &mut Vec<Flow>, src: NodeId, nodes: &[NodeId]) -> Result<(), Memory>
    ensures { OnOk result (pairs.new.items ≡ pairs.old.items ++ flows_from src nodes.now) }
{
    'destinations: for dst in nodes {
        if dst.0 != src.0 {
            pairs.push(Flow { src, dst: *dst })?;
        }
    }
    Ok(())
}
