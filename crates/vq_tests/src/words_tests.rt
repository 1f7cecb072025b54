//! The words of the command line, and what they ask for.
use std::alloc::{AllocError, Global};
use vq_words::{Task, WordsFault, read_words};

/// The words of a line, with one blank between two words.
fn words_of(alloc: Global, line: &str) -> Result<Vec<String>, AllocError> {
    let mut words = Vec::new(alloc);
    for word in line.split(' ') {
        words.push(String::from_str(alloc, word)?)?;
    }
    Ok(words)
}

/// Whether the words of a line ask for this task, or for none.
fn asks(alloc: Global, line: &str, want: Result<Task, WordsFault>) -> bool {
    match words_of(alloc, line) {
        Ok(words) => read_words(alloc, words.as_slice()) == want,
        Err(_) => false,
    }
}

const TASKS: [(&str, Task); 10] = [
    ("--check", Task::Check),
    ("--replay", Task::Replay),
    ("--rounds", Task::Rounds),
    ("--upgrade", Task::Upgrade),
    ("--audit", Task::Audit),
    ("--hosts", Task::Hosts),
    ("--generate 500", Task::Generate(500)),
    ("--generate=500", Task::Generate(500)),
    ("--generate 007", Task::Generate(7)),
    ("--generate=1", Task::Generate(1)),
];

/// Whether lines ask for these tasks.
fn ask(alloc: Global, rows: &[(&str, Task)]) -> bool {
    for (line, task) in rows {
        if !asks(alloc, line, Ok(*task)) {
            return false;
        }
    }
    true
}

#[test]
fn words_ask_for_a_task(rt: HostRuntime) {
    assert!(rt; ask(rt.alloc(), &TASKS));
    assert!(rt; read_words(rt.alloc(), &[]) == Ok(Task::Run));
}

const BAD: [&str; 15] = [
    "",
    "x",
    "--",
    "--help",
    "--check=1",
    "--check --replay",
    "--rounds=3",
    "--audit=1",
    "--generate",
    "--generate=",
    "--generate 501",
    "--generate 0500",
    "--generate +5",
    "--generate -- 5",
    "--gen 5",
];

/// Whether lines ask for nothing.
fn are_bad(alloc: Global, lines: &[&str]) -> bool {
    for line in lines {
        if !asks(alloc, line, Err(WordsFault::Bad)) {
            return false;
        }
    }
    true
}

#[test]
fn other_words_are_bad(rt: HostRuntime) {
    assert!(rt; are_bad(rt.alloc(), &BAD));
}
