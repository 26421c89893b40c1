// The time, as a number of milliseconds.
ghost use Rattle.std.specs.Prelude.{◌∷◌, [], ℕ, List, Option};
ghost use Rattle.sp_outside.specs.Calls.{Tells};

/// A clock that can't fail.
pub trait Clock {
    /// The readings, in order, where the object tells them.
    ghost told: { Self → Option (List ℕ) };

    /// Milliseconds since the beginning of 1970. Expiries travel between daemons, so the clocks of all of them count from there.
    fn now_ms(&mut self) -> u64
        ensures told { Tells (told self.old) (told self.new) (result ∷ []) };
}
