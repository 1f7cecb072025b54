//! Makes so many steps of one kind on a live timeline, so that their time can be measured from outside:
//! on one without a lock, or on one under its lock, by one thread or by two.
#![tactic(auto)]

mod alone;
mod locked;
mod step;

use std::alloc::Global;
use std::process::ExitCode;
use std::sync::Wait;
use std::thread::{Threads, join};
use std::{env, io};
use step::{Step, Task, are_exchanged};
use vq_live_lock::LockedLive;

const USAGE: &str = "usage: vq_live_bench KIND ROUNDS FLIGHT THREADS
    bare-cas, value, look, find, refer, cancel, turn, whole, signal, wake;
    0 threads: without a lock";

/// Makes the steps under a lock, in one thread or in two.
fn are_made<R: Threads + Wait + Sync>(rt: &R, timeline: &LockedLive, task: Task) -> bool {
    if task.threads == 1 {
        return locked::are_made(rt, timeline, task, 1);
    }
    join(
        rt,
        || locked::are_made(rt, timeline, task, 1),
        || locked::are_made(rt, timeline, task, 2),
    ) == (true, true)
}

/// Does so once the timeline has what is to be in flight.
fn is_run_on<R: Threads + Wait + Sync>(rt: &R, timeline: &LockedLive, task: Task) -> bool {
    locked::is_filled(rt, timeline, task.flight) && are_made(rt, timeline, task)
}

/// The same on a timeline of its own.
fn is_run_locked<R: Threads + Wait + Sync>(rt: &R, alloc: Global, task: Task) -> bool {
    match locked::opened(alloc) {
        Some(timeline) => is_run_on(rt, &timeline, task),
        None => false,
    }
}

/// Makes the steps. It says whether they came out as wanted.
fn is_run<R: Threads + Wait + Sync>(rt: &R, alloc: Global, task: Task) -> bool {
    if let Step::Exchange = task.step {
        return are_exchanged(task.rounds);
    }
    if task.threads == 0 {
        return alone::are_made(alloc, task);
    }
    is_run_locked(rt, alloc, task)
}

fn number(word: &String) -> Option<u64> {
    word.as_str().parse::<u64>().ok()
}

/// What the words ask for.
fn task_of(words: &[String]) -> Option<Task> {
    let [_, name, rounds, flight, threads] = words else {
        return None;
    };
    Some(Task {
        step: Step::named(name.as_str())?,
        rounds: number(rounds)?,
        flight: number(flight)?,
        threads: number(threads)?,
    })
}

/// What is printed, and the status.
fn answer<R: Threads + Wait + Sync>(rt: &R, alloc: Global, words: &[String]) -> (&'static str, u8) {
    match task_of(words) {
        None => (USAGE, 2),
        Some(task) if is_run(rt, alloc, task) => ("done", 0),
        Some(_) => ("failed", 1),
    }
}

/// The words of the command line.
fn words(rt: &HostRuntime) -> io::Result<Vec<String>> {
    let mut words = Vec::new(rt.alloc());
    for word in env::args(rt)? {
        words.push(word)?;
    }
    Ok(words)
}

fn main(rt: HostRuntime) -> io::Result<ExitCode> {
    let (said, status) = answer(&rt, rt.alloc(), words(&rt)?.as_slice());
    println!(rt; "{said}")?;
    Ok(ExitCode::from(status))
}
