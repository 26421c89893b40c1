// Which entries leave a store at once.
ghost use Rattle.std.specs.Prelude.{◌≡◌, ◌==◌};
ghost use Rattle.std.specs.List.{list_any};
ghost use Rattle.sp_store.specs.Leaving.{leaves};

use crate::said::{expiry, source, target};
use sp_base::NodeId;
use sp_rules::Entry;

/// Which entries leave a store at once.
#[derive(Clone, Copy, Debug)]
pub enum Leaving<'a> {
    /// Those whose expiry is before this time.
    Expired { now: u64 },
    /// Those with one of these nodes as an end.
    Removed { nodes: &'a [NodeId] },
    /// Every one.
    All,
}

impl Leaving<'_> {
    /// Whether an entry is one of them.
    pub(crate) fn has(&self, entry: &Entry) -> bool
        ensures { result ≡ leaves self.now entry.now }
    {
        match self {
            Leaving::Expired { now } => expiry(entry) < *now,
            Leaving::Removed { nodes } => {
                is_one_of(nodes, source(entry)) || is_one_of(nodes, target(entry))
            }
            Leaving::All => true,
        }
    }
}

/// Whether one of these nodes has this id.
fn is_one_of(nodes: &[NodeId], id: u8) -> bool
    ensures { result ≡ list_any (λ n. n.0 == id) nodes.now }
{
    nodes.iter().any(|node| node.0 == id)
}
