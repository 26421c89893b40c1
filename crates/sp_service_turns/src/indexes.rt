// How far a node is with the indexes of its signing key, and when more of them are reserved.
ghost use Rattle.std.specs.Prelude.{◌≡◌};
ghost use Rattle.sp_service_turns.specs.Indexes.{are_few};

use sp_keystate::LEAST_LEFT;

/// How far a node is with the indexes of its signing key.
#[derive(Clone, Copy, Debug, PartialEq, Eq)]
pub struct Indexes {
    /// The index of the next signature.
    pub index: u64,
    /// The indexes below this one are reserved.
    pub bound: u64,
    /// How many messages the key signs.
    pub total: u64,
}

impl Indexes {
    /// Whether a turn that begins so reserves more: fewer reserved indexes are left than `LEAST_LEFT`, and not all indexes are reserved.
    pub fn are_few(self) -> bool
        ensures { result ≡ are_few self }
    {
        self.bound.saturating_sub(self.index) < LEAST_LEFT && self.bound < self.total
    }
}
