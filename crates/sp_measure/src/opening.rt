// How long a probe is open, and what it costs.
ghost use Rattle.std.specs.Prelude.{◌≡◌, ◌≤◌, ◌<◌, ◌+◌};
ghost use Rattle.sp_measure.specs.Costs.{cost_at};

use sp_base::MAX_WEIGHT;

/// The greatest cost of a probe: that of the greatest weight.
pub const MAX_COST: u32 = MAX_WEIGHT;

/// What each frame costs that carried a probe, beyond the first.
pub const FRAME_COST: u64 = 4;

/// How many probes a meter opens, and how many frames carry one of them.
pub const MAX_OPENINGS: u64 = 1 << 60;

/// A probe that is open: since which time, and how many frames carried it.
#[derive(Clone, Copy, Debug, PartialEq, Eq)]
pub struct Opening {
    pub since: u64,
    pub frames: u64,
}

impl Opening {
    /// One more frame carries the probe.
    pub(crate) fn carried(self) -> Opening
        requires { self.frames < MAX_OPENINGS }
        ensures { result ≡ record self { frames = self.frames + 1 } }
    {
        Opening {
            since: self.since,
            frames: self.frames + 1,
        }
    }

    /// What the probe costs that is closed at this time: the time that it was open and `FRAME_COST` for each frame beyond the first, at most
    /// `MAX_COST`.
    pub fn cost(&self, now: u64) -> u32
        requires { self.now.since ≤ now }
        ensures cost { result ≡ cost_at self.now now }
        ensures range { result ≤ MAX_COST }
    {
        let waited = now - self.since;
        let repeated = FRAME_COST.saturating_mul(self.frames.saturating_sub(1));
        waited.saturating_add(repeated).min(u64::from(MAX_COST)) as u32
    }
}
