// A flow by its ends.
ghost use Rattle.std.specs.Prelude.{◌≡◌};

use crate::{Flow, NodeId};

impl Flow {
    /// The flow between these ends.
    pub fn between(src: NodeId, dst: NodeId) -> Flow
        ensures { result ≡ record { src = src; dst = dst } }
    {
        Flow { src, dst }
    }
}
