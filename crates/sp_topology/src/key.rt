// The key that a topology has for a node.
ghost use Rattle.std.specs.Prelude.{◌≡◌, option_map};
ghost use Rattle.sp_topology.specs.Keys.{key_of};

use crate::Topology;
use sp_base::NodeId;

impl Topology {
    /// The public key of a node. None exactly where the node isn't there.
    pub fn key_of(&self, node: NodeId) -> Option<&[u8; 60]>
        ensures { option_map (λ key. key.now) result ≡ key_of node.0 self.now.nodes }
    {
        'nodes: for named in self.nodes.as_slice() {
            if named.id.0 == node.0 {
                return Some(&named.key);
            }
        }
        None
    }
}
