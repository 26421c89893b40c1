// A daemon with all that it calls, in one value.
ghost use Rattle.std.specs.Prelude.{◌≡◌, ◌<◌, ◌^◌, false, true};
ghost use Rattle.sp_service_station.specs.Stations.{indexes_in};

use crate::joined::JoinedWire;
use crate::quiet::QuietKeeper;
use sp_base::MAX_INPUT_BYTES;
use sp_keystate::format;
use sp_outside::{MemoryClock, MemorySink};
use sp_service::{Served, Verdict, start, verify};
use sp_service_station::Station;
use sp_service_turns::Daemon;
use std::alloc::Global;
use std::test::Fail;

/// No daemon here makes more turns.
const MOST_TURNS: u32 = 1_000;

/// What the clock of each daemon says.
const NOW: u64 = 5;

/// A daemon with its configuration, its wire, its clock, its key file and its recording. Until a turn fails, the file stands for its keys.
#[derive(Drop)]
pub(crate) struct Host {
    config: String,
    daemon: Daemon<Station>,
    is_over: bool,
    pub(crate) wire: JoinedWire,
    clock: MemoryClock<'static>,
    keeper: QuietKeeper,
    sink: MemorySink,
    ghost current: { is_over ≡ false → daemon.keys.is_current ≡ true },
    ghost bound: { is_over ≡ false → daemon.keys.bound ≡ (indexes_in daemon.node).bound },
    ghost serial: { is_over ≡ false → daemon.keys.serial < 2 ^ 64 },
}

impl Host {
    /// The daemon of this configuration, at its first start.
    pub(crate) fn start(alloc: Global, config: String) -> Result<Host, Fail> {
        let mut wire = JoinedWire::new(alloc);
        let mut keeper = QuietKeeper::new();
        let mut sink = MemorySink::new(alloc);
        let Ok(_) = format(&mut keeper) else {
            return Err("no key file".into());
        };
        match start(
            alloc,
            config.as_bytes(),
            false,
            &mut wire,
            &mut keeper,
            &mut sink,
        ) {
            Ok(daemon) => Ok(Host {
                config,
                daemon,
                is_over: false,
                wire,
                clock: MemoryClock::new(NOW),
                keeper,
                sink,
            }),
            Err(_) => Err("no start".into()),
        }
    }

    /// Makes one turn. After one that failed it makes no other.
    pub(crate) fn turn(&mut self, alloc: Global) -> Result<(), Fail> {
        if self.is_over || self.daemon.turns() >= MOST_TURNS {
            return Err("no more turns".into());
        }
        self.is_over = true;
        let made = self.daemon.turn(
            alloc,
            &mut self.wire,
            &mut self.clock,
            &mut self.keeper,
            &mut self.sink,
        );
        match made {
            Ok(()) => {
                self.is_over = false;
                Ok(())
            }
            Err(_) => Err("a turn failed".into()),
        }
    }

    /// Ends the daemon with its last line. Gives whether it ended well, and its recording is verified by its configuration.
    pub(crate) fn is_verified(self, alloc: Global) -> Result<bool, Fail> {
        let Host {
            config,
            daemon,
            mut sink,
            ..
        } = self;
        if daemon.finish(alloc, &mut sink) != Served::Done {
            return Ok(false);
        }
        let mut text = Vec::from_slice(alloc, config.as_bytes())?;
        text.extend_from_slice(sink.bytes())?;
        if text.len() > MAX_INPUT_BYTES {
            return Ok(false);
        }
        Ok(verify(alloc, &text, false)?.verdict == Verdict::Verified)
    }
}
