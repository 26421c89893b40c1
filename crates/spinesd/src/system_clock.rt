// The time of the system, in milliseconds since the beginning of 1970. The clock tells nothing of its readings.
ghost use Rattle.std.specs.Prelude.{None};

use sp_outside::Clock;
use std::io;
use std::rt::Clock as SystemTimes;
use std::time::{SystemTime, UNIX_EPOCH};

/// The system's clock. Where the system doesn't tell the time, or one before 1970, the last reading stands.
#[derive(Drop)]
pub struct SystemClock<'r, R: SystemTimes> {
    rt: &'r R,
    last: u64,
}

impl<'r, R: SystemTimes> SystemClock<'r, R> {
    /// Its last reading is 0, as long as it wasn't read.
    pub fn new(rt: &'r R) -> Self {
        SystemClock { rt, last: 0 }
    }
}

/// Milliseconds since the beginning of 1970. Those of a time beyond 2^64 are the greatest number.
fn since_1970<R: SystemTimes>(rt: &R) -> io::Result<Option<u64>> {
    match SystemTime::now(rt)?.duration_since(UNIX_EPOCH) {
        Ok(since) => Ok(Some(u64::try_from(since.as_millis()).unwrap_or(u64::MAX))),
        Err(_) => Ok(None),
    }
}

impl<R: SystemTimes> Clock for SystemClock<'_, R> {
    ghost told = { λ _. None };

    fn now_ms(&mut self) -> u64 {
        if let Ok(Some(now)) = since_1970(self.rt) {
            self.last = now;
        }
        self.last
    }
}
