// Which calls of a small file in memory fail, and what it keeps of its calls.
ghost use Rattle.std.specs.Prelude.{◌≡◌, []};

/// Which calls fail, of each kind by their numbers, counted from 0.
#[derive(Clone, Copy, Debug)]
pub struct KeeperPlan<'a> {
    pub reads: &'a [u64],
    pub writes: &'a [u64],
    pub syncs: &'a [u64],
}

impl KeeperPlan<'static> {
    /// No call is planned to fail.
    pub fn none() -> Self
        ensures { (result.reads.now ≡ []) × (result.writes.now ≡ []) × (result.syncs.now ≡ []) }
    {
        KeeperPlan {
            reads: &[],
            writes: &[],
            syncs: &[],
        }
    }
}

/// A call that was made, and whether it did its work.
#[derive(Debug, Drop)]
pub enum KeeperCall {
    Read {
        at: u64,
        len: usize,
        is_done: bool,
    },
    Written {
        at: u64,
        bytes: Vec<u8>,
        is_done: bool,
    },
    Synced {
        is_done: bool,
    },
}
