//! `spinesd`: hands the words of the command line, standard input and output, the sockets of this machine, its clock and the key file to the one
//! call that does it all.
#![tactic(auto)]

mod ears;
mod hearing;
mod inlet;
mod key_file;
mod news;
mod options;
mod pace;
mod place;
mod program;
mod sockets;
mod standard;
mod system_clock;
mod udp_wire;
mod waiter;

use key_file::KeyFile;
use program::program;
use std::alloc::{AllocError, Global};
use std::env;
use std::io::ErrorKind;
use std::process::ExitCode;
use std::rt::Env;
use system_clock::SystemClock;
use udp_wire::UdpWire;

fn main(rt: HostRuntime) -> ExitCode {
    let alloc = rt.alloc();
    let finished = program(
        alloc,
        words(&rt, alloc),
        rt.stdin(),
        rt.stdout(),
        UdpWire::new(&rt, alloc),
        SystemClock::new(&rt),
        KeyFile::new(&rt),
    );
    ExitCode::from(finished.code)
}

/// The words of the command line after the program's name. Words that aren't UTF-8 are none.
fn words(rt: &(impl Env + AllocGlobal), alloc: Global) -> Result<Vec<String>, AllocError> {
    match env::args(rt) {
        Ok(args) => args.skip(1).collect(alloc),
        Err(error) if error.kind() == ErrorKind::OutOfMemory => Err(AllocError),
        Err(_) => Ok(Vec::new(alloc)),
    }
}
