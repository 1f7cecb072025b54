//! The program `vq`: reads a script of buffers, semaphores, fences and queues from standard input, and
//! writes to standard output what the words of its command line ask for.
#![tactic(auto)]

mod file_limit;
mod memory;
mod output;

use crate::memory::keep_given_back;
use crate::output::Output;
use std::process::ExitCode;
use std::{env, io};
use vq_port::{StdSource, write_whole};
use vq_rings::OpenGate;
use vq_run::Status;
pub use vq_run::{generate, run, still};

/// The words of the command line, without the program's name.
fn words(rt: &HostRuntime) -> io::Result<Vec<String>> {
    let mut words = Vec::new(rt.alloc());
    for word in env::args(rt)?.skip(1) {
        words.push(word)?;
    }
    Ok(words)
}

fn main(rt: HostRuntime) -> ExitCode {
    keep_given_back(rt.alloc());
    let mut source = StdSource::new(rt.stdin());
    let mut sink = Output::new(&rt);
    let status = match words(&rt) {
        Ok(words) => run(
            &rt,
            rt.alloc(),
            words.as_slice(),
            &mut source,
            &mut sink,
            &OpenGate,
        ),
        Err(error) if error.kind() == io::ErrorKind::OutOfMemory => Status::Memory,
        // A word that is no text.
        Err(_) => match write_whole(&mut sink, b"error: words\n") {
            Ok(()) => Status::BadWords,
            Err(_) => Status::WriteFault,
        },
    };
    ExitCode::from(status.number())
}
