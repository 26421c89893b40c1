// Any writer as a sink. It tells what the writer tells of its bytes.
ghost use Rattle.std.specs.Prelude.{◌≡◌};

use sp_outside::{Failed, Sink};
use std::io::Write;

/// Output to a writer. A call that fails is counted, and so is one that takes nothing of a piece.
#[derive(Drop)]
pub struct StandardSink<W: Write> {
    writer: W,
    faults: u64,
}

impl<W: Write> StandardSink<W> {
    pub fn new(writer: W) -> Self
        ensures { result ≡ record { writer = writer; faults = 0 } }
    {
        StandardSink { writer, faults: 0 }
    }

    pub fn into_writer(self) -> W
        ensures { result ≡ self.writer }
    {
        let StandardSink { writer, .. } = self;
        writer
    }
}

impl<W: Write> Sink for StandardSink<W> {
    ghost contents = { λ s. W.contents s.writer };

    ghost faults = { λ s. s.faults };

    fn write(&mut self, piece: &[u8]) -> Result<usize, Failed> {
        match self.writer.write(piece) {
            Ok(count) if 0 < count || piece.is_empty() => Ok(count),
            _ => {
                self.faults = self.faults.saturating_add(1);
                Err(Failed)
            }
        }
    }
}
