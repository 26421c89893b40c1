// A key file in memory that tells nothing: what a daemon asks of it is then three equations, which a type can keep.
ghost use Rattle.std.specs.Prelude.{None};

use sp_outside::{Failed, Keeper, MemoryKeeper};

/// A file in memory. No call fails, and it tells nothing of its bytes.
#[derive(Drop)]
pub(crate) struct QuietKeeper {
    file: MemoryKeeper,
}

impl QuietKeeper {
    /// An empty file.
    pub(crate) fn new() -> Self {
        QuietKeeper {
            file: MemoryKeeper::new(),
        }
    }
}

impl Keeper for QuietKeeper {
    ghost disk = { λ _. None };

    ghost past = { λ _. None };

    ghost faults = { λ _. 0 };

    fn read(&mut self, at: u64, buf: &mut [u8]) -> Result<usize, Failed> {
        self.file.read(at, buf)
    }

    fn write_at(&mut self, at: u64, bytes: &[u8]) -> Result<(), Failed> {
        self.file.write_at(at, bytes)
    }

    fn sync(&mut self) -> Result<(), Failed> {
        self.file.sync()
    }
}
