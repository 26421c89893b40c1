// Why no disjoint paths are given.
use sp_base::{Listed, Memory};
use sp_graph::Part;
use thiserror::Error;

/// Why no disjoint paths are given: the first of these that is so.
#[derive(Debug, Drop, Error)]
pub enum PathRefused {
    /// An end is no node of the graph.
    #[error("an end is no node of the graph")]
    Unknown,
    /// Both ends are the same node.
    #[error("both ends are the same node")]
    SameEnds,
    /// There are fewer disjoint paths than were asked for: so many, and no more, since only so many arcs lead out of the parts of the cut.
    #[error("there are fewer disjoint paths: {found}")]
    Fewer { found: u8, cut: Listed<Part> },
    /// No memory was left for the search or its answer.
    #[error("no memory is left")]
    Memory,
}

impl From<Memory> for PathRefused {
    ghost use Rattle.std.specs.Prelude.{◌≡◌};
    ghost use Rattle.sp_paths.specs.declared.refused.PathRefused.TheVariants.{Memory as NoMemory};

    ghost from_gives = { λ _ refused. refused ≡ NoMemory };

    fn from(_: Memory) -> Self {
        PathRefused::Memory
    }
}
