//! The program `vqc`: reads a capture from standard input, and writes its verdict to standard output. With the word
//! `--memory` it is the verdict with memory. Any other words are refused, and nothing is read then.
#![tactic(auto)]

use std::process::ExitCode;
use std::{env, io};
use vq_capture_top::{judge, judge_memory};
use vq_port::{StdSink, StdSource, write_whole};

/// What the words of the command line ask for.
#[derive(Clone, Copy)]
enum Task {
    Order,
    Memory,
    /// Other words.
    Nothing,
}

/// What these words ask for, those behind the program's name. The error is want of memory, or a word that is no text.
fn task_of(rt: &HostRuntime) -> io::Result<Task> {
    let mut words = env::args(rt)?.skip(1);
    let Some(word) = words.next() else {
        return Ok(Task::Order);
    };
    match words.next() {
        None if word.as_str() == "--memory" => Ok(Task::Memory),
        _ => Ok(Task::Nothing),
    }
}

/// Refuses the words: the exit status.
fn refuse(rt: &HostRuntime) -> u8 {
    match write_whole(&mut StdSink::new(rt.stdout()), b"error: words\n") {
        Ok(()) => 1,
        Err(_) => 4,
    }
}

/// Does what is asked for: the exit status.
fn answer(rt: &HostRuntime, task: Task) -> u8 {
    let mut source = StdSource::new(rt.stdin());
    let mut sink = StdSink::new(rt.stdout());
    match task {
        Task::Order => judge(rt.alloc(), &mut source, &mut sink).number(),
        Task::Memory => judge_memory(rt.alloc(), &mut source, &mut sink).number(),
        Task::Nothing => refuse(rt),
    }
}

fn main(rt: HostRuntime) -> ExitCode {
    let status = match task_of(&rt) {
        Ok(task) => answer(&rt, task),
        Err(error) if error.kind() == io::ErrorKind::OutOfMemory => 5,
        // A word that is no text.
        Err(_) => refuse(&rt),
    };
    ExitCode::from(status)
}
