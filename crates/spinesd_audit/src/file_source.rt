// A file as a source. It tells what its reader tells of its bytes.
ghost use Rattle.std.specs.Prelude.{None, option_and_then};

use sp_outside::{Failed, Source};
use std::fs;
use std::io::Read;
use std::rt::Files;

/// A file that is read, or none: one that isn't named or couldn't be opened, of which each read fails. A call that fails is counted.
#[derive(Drop)]
pub struct FileSource<F: Read> {
    file: Option<F>,
    faults: u64,
}

impl<F: Read> FileSource<F> {
    /// The file of this name, where there is one that can be opened.
    pub fn open<R: Files<File = F>>(rt: &R, name: Option<&str>) -> Self {
        let file = match name {
            Some(name) => fs::open(rt, name).ok(),
            None => None,
        };
        FileSource { file, faults: 0 }
    }
}

impl<F: Read> Source for FileSource<F> {
    ghost left = { λ s. option_and_then F.remaining s.file };

    ghost faults = { λ s. s.faults };

    fn read(&mut self, buf: &mut [u8]) -> Result<usize, Failed> {
        let got = match &mut self.file {
            Some(file) => file.read(buf).ok(),
            None => None,
        };
        match got {
            Some(count) => Ok(count),
            None => {
                self.faults = self.faults.saturating_add(1);
                Err(Failed)
            }
        }
    }
}
