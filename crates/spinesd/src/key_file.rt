// The key file of a daemon: a small file of the folder that the program is started in. It tells nothing of its bytes.
ghost use Rattle.std.specs.Prelude.{◌≡◌, None};
ghost use Rattle.std.specs.Io.{ReadsAtMost};

use sp_outside::{Failed, Keeper};
use std::fs::{File, OpenFile, OpenOptions};
use std::io::ErrorKind;
use std::os::unix::fs::FileExt;
use std::rt::Files;
use std::{fs, io};

/// The name of the key file.
pub const KEY_FILE: &str = "spinesd.keys";

/// The folder that the key file is in.
const FOLDER: &str = ".";

/// A file that is opened at its first call, and made at its first write: so a command that doesn't call it leaves none behind. Nobody else holds
/// it meanwhile: where another process does, each call fails.
#[derive(Drop)]
pub struct KeyFile<'r, R: Files<File = File>> {
    rt: &'r R,
    file: Option<File>,
    faults: u64,
}

impl<'r, R: Files<File = File>> KeyFile<'r, R> {
    /// No file is open yet.
    pub fn new(rt: &'r R) -> Self {
        KeyFile {
            rt,
            file: None,
            faults: 0,
        }
    }

    /// Opens the file, if that wasn't done yet. Where there is none, it is made, or there stays none.
    fn ready(&mut self, makes: bool) -> io::Result<()>
        ensures { self.new.faults ≡ self.old.faults }
    {
        if self.file.is_none() {
            self.file = opened(self.rt, makes)?;
        }
        Ok(())
    }

    /// A file that isn't there has no bytes.
    fn try_read(&mut self, at: u64, buf: &mut [u8]) -> io::Result<usize>
        ensures bound { ReadsAtMost result buf.new }
        ensures faults { self.new.faults ≡ self.old.faults }
    {
        self.ready(false)?;
        match &self.file {
            Some(file) => read_from(file, at, buf),
            None => Ok(0),
        }
    }

    fn try_write(&mut self, at: u64, bytes: &[u8]) -> io::Result<()>
        ensures { self.new.faults ≡ self.old.faults }
    {
        self.ready(true)?;
        match &self.file {
            Some(file) => file.write_all_at(bytes, at),
            None => Err(io::Error::from(ErrorKind::NotFound)),
        }
    }

    fn try_sync(&mut self) -> io::Result<()>
        ensures { self.new.faults ≡ self.old.faults }
    {
        self.ready(false)?;
        match &self.file {
            Some(file) => file.sync_all(),
            None => Ok(()),
        }
    }
}

/// The file, locked for this process. None where there is none and none is to be made. Its folder is synced before it is used, whoever made it: so
/// no loss of power takes the file away that a daemon signed by.
fn opened<R: Files<File = File>>(rt: &R, makes: bool) -> io::Result<Option<File>> {
    let found = OpenOptions::new()
        .read(true)
        .write(true)
        .create(makes)
        .open(rt, KEY_FILE);
    match found {
        Ok(file) => {
            if file.try_lock().is_err() {
                return Err(io::Error::from(ErrorKind::WouldBlock));
            }
            let folder = fs::open(rt, FOLDER)?;
            folder.sync_all()?;
            Ok(Some(file))
        }
        Err(error) if error.kind() == ErrorKind::NotFound => Ok(None),
        Err(error) => Err(error),
    }
}

/// Reads from this place up to the end of the file or of the buffer.
fn read_from(file: &File, at: u64, buf: &mut [u8]) -> io::Result<usize>
    ensures { ReadsAtMost result buf.new }
{
    let mut done = 0usize;
    'pieces: while done < buf.len() {
        let count = file.read_at(&mut buf[done..], at.saturating_add(done as u64))?;
        if count == 0 {
            return Ok(done);
        }
        done += count;
    }
    Ok(done)
}

impl<R: Files<File = File>> Keeper for KeyFile<'_, R> {
    ghost disk = { λ _. None };

    ghost past = { λ _. None };

    ghost faults = { λ k. k.faults };

    fn read(&mut self, at: u64, buf: &mut [u8]) -> Result<usize, Failed> {
        match self.try_read(at, buf) {
            Ok(count) => Ok(count),
            Err(_) => {
                self.faults = self.faults.saturating_add(1);
                Err(Failed)
            }
        }
    }

    fn write_at(&mut self, at: u64, bytes: &[u8]) -> Result<(), Failed> {
        match self.try_write(at, bytes) {
            Ok(()) => Ok(()),
            Err(_) => {
                self.faults = self.faults.saturating_add(1);
                Err(Failed)
            }
        }
    }

    fn sync(&mut self) -> Result<(), Failed> {
        match self.try_sync() {
            Ok(()) => Ok(()),
            Err(_) => {
                self.faults = self.faults.saturating_add(1);
                Err(Failed)
            }
        }
    }
}
