// A small file in memory that never fails.
ghost use Rattle.std.specs.Prelude.{◌≡◌, [], None, Some};
ghost use Rattle.sp_outside.specs.Disk.{still};

use crate::file_bytes::FileBytes;
use crate::{Failed, Keeper};

/// A file in memory. No call fails. Its bytes are its one image, and it tells nothing of earlier moments.
#[derive(Drop)]
pub struct MemoryKeeper {
    file: FileBytes,
}

impl MemoryKeeper {
    /// An empty file.
    pub fn new() -> Self
        ensures { result.file ≡ [] }
    {
        MemoryKeeper {
            file: FileBytes::new(),
        }
    }

    /// What stands in the file.
    pub fn bytes(&self) -> &[u8]
        ensures { result.now ≡ self.now.file }
    {
        self.file.as_slice()
    }
}

impl Keeper for MemoryKeeper {
    ghost disk = { λ k. Some (still k.file) };

    ghost past = { λ _. None };

    ghost faults = { λ _. 0 };

    fn read(&mut self, at: u64, buf: &mut [u8]) -> Result<usize, Failed> {
        Ok(self.file.read(at as usize, buf))
    }

    fn write_at(&mut self, at: u64, bytes: &[u8]) -> Result<(), Failed> {
        self.file.write(at as usize, bytes);
        Ok(())
    }

    fn sync(&mut self) -> Result<(), Failed> {
        Ok(())
    }
}
