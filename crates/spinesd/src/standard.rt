// The real objects: any reader as a source, any writer as a sink. They tell what the reader and the writer tell of their bytes.
ghost use Rattle.std.specs.Prelude.{◌≡◌};

use sp_outside::{Failed, Sink, Source};
use std::io::{Read, Write};

/// Input from a reader. A call that fails is counted.
#[derive(Drop)]
pub struct StandardSource<R: Read> {
    reader: R,
    faults: u64,
}

impl<R: Read> StandardSource<R> {
    pub fn new(reader: R) -> Self
        ensures { result ≡ record { reader = reader; faults = 0 } }
    {
        StandardSource { reader, faults: 0 }
    }

    pub fn into_reader(self) -> R
        ensures { result ≡ self.reader }
    {
        let StandardSource { reader, .. } = self;
        reader
    }
}

impl<R: Read> Source for StandardSource<R> {
    ghost left = { λ s. R.remaining s.reader };

    ghost faults = { λ s. s.faults };

    fn read(&mut self, buf: &mut [u8]) -> Result<usize, Failed> {
        match self.reader.read(buf) {
            Ok(count) => Ok(count),
            Err(_) => {
                self.faults = self.faults.saturating_add(1);
                Err(Failed)
            }
        }
    }
}

/// Output to a writer. A call that fails is counted, and so is one that takes nothing of a piece.
#[derive(Drop)]
pub struct StandardSink<W: Write> {
    writer: W,
    faults: u64,
}

impl<W: Write> StandardSink<W> {
    pub fn new(writer: W) -> Self
        ensures { result ≡ record { writer = writer; faults = 0 } }
    {
        StandardSink { writer, faults: 0 }
    }

    pub fn into_writer(self) -> W
        ensures { result ≡ self.writer }
    {
        let StandardSink { writer, .. } = self;
        writer
    }
}

impl<W: Write> Sink for StandardSink<W> {
    ghost contents = { λ s. W.contents s.writer };

    ghost faults = { λ s. s.faults };

    fn write(&mut self, piece: &[u8]) -> Result<usize, Failed> {
        match self.writer.write(piece) {
            Ok(count) if 0 < count || piece.is_empty() => Ok(count),
            _ => {
                self.faults = self.faults.saturating_add(1);
                Err(Failed)
            }
        }
    }
}
