// The nodes that are removed.
ghost use Rattle.std.specs.Prelude.{◌≡◌, ◌≤◌, length, vec_capacity};
ghost use Rattle.sp_rules.specs.Prio.{is_node};

use sp_base::{NodeId, push_in_room};

/// These nodes are removed from now on. It takes no memory.
pub fn refill(removed: &mut Vec<NodeId>, nodes: &[NodeId])
    requires { length nodes.now ≤ vec_capacity removed.old }
    ensures items { removed.new.items ≡ nodes.now }
    ensures capacity { vec_capacity removed.new ≡ vec_capacity removed.old }
{
    removed.clear();
    'nodes: for node in nodes {
        push_in_room(removed, *node);
    }
}
