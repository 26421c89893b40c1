// The whole program over any two files and any writer: what the words say goes in, output and a number come out.
ghost use Rattle.std.specs.Prelude.{IfOk};
ghost use Rattle.sp_words.specs.AuditLines.{IsInRange};
ghost use Rattle.spinesd_audit.specs.Ended.{Ended};

use crate::standard_sink::StandardSink;
use sp_auditor::{AuditLine, WordsRefused, run};
use sp_outside::Source;
use std::alloc::Global;
use std::io::Write;

/// What the program leaves: the number with which it ends, and the writer.
#[derive(Drop)]
pub struct Finished<W: Write> {
    /// 0 done, 2 usage, 3 refused, 5 source, 6 sink, 9 memory, 14 broken.
    pub code: u8,
    pub writer: W,
}

/// Does what the words of a command line say over the files that they name.
pub fn program<S: Source + Drop, J: Source + Drop, W: Write>(
    alloc: Global,
    said: &Result<AuditLine<'_>, WordsRefused>,
    mut schedule: S,
    mut journal: J,
    writer: W,
) -> Finished<W>
    requires { IfOk said.now IsInRange }
    ensures { Ended said.now (S.left schedule) (S.faults schedule) (J.left journal) (J.faults journal) (W.contents writer) (W.contents result.writer)
        result.code }
{
    let mut sink = StandardSink::new(writer);
    let status = run(alloc, said, &mut schedule, &mut journal, &mut sink);
    Finished {
        code: status.code(),
        writer: sink.into_writer(),
    }
}
