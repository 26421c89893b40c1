//! `spinesd-audit`: hands the words of the command line, the files that they name and standard output to the one call that judges them.
#![tactic(auto)]

mod file_source;
mod names;
mod program;
mod standard_sink;

use file_source::FileSource;
use names::Names;
use program::program;
use sp_auditor::{AuditStatus, parse_audit};
use std::alloc::{AllocError, Global};
use std::env;
use std::io::ErrorKind;
use std::process::ExitCode;
use std::rt::Env;

fn main(rt: HostRuntime) -> ExitCode {
    let alloc = rt.alloc();
    let Ok(words) = words(&rt, alloc) else {
        return ExitCode::from(AuditStatus::Memory.code());
    };
    let said = parse_audit(alloc, words.as_slice());
    let names = Names::of(&said);
    let finished = program(
        alloc,
        &said,
        FileSource::open(&rt, names.schedule),
        FileSource::open(&rt, names.journal),
        rt.stdout(),
    );
    ExitCode::from(finished.code)
}

/// The words of the command line after the program's name. Words that aren't UTF-8 are none.
fn words(rt: &(impl Env + AllocGlobal), alloc: Global) -> Result<Vec<String>, AllocError> {
    match env::args(rt) {
        Ok(args) => args.skip(1).collect(alloc),
        Err(error) if error.kind() == ErrorKind::OutOfMemory => Err(AllocError),
        Err(_) => Ok(Vec::new(alloc)),
    }
}
