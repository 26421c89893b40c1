// Another life of a neighbour begins: what it reported and acknowledged before is forgotten.
ghost use Rattle.std.specs.Prelude.{◌≡◌};
ghost use Rattle.sp_rules.specs.Arrivals.{greeted};

use crate::arrival::Arrival;
use sp_node_parts::Parts;

/// With epochs, forgets what the neighbour reported and acknowledged where another life of it began. It takes no memory.
pub fn greet(at: &Arrival<'_>, parts: &mut Parts)
    ensures { parts.new ≡ greeted at.now.fixed.now.epochs at.now.risen at.now.from parts.old }
{
    let fixed = at.fixed;
    if fixed.epochs && at.risen {
        parts.prio.forget(at.from);
        parts.rel.forget(at.from);
        parts.kflow.flows.forget(at.from);
    }
}
