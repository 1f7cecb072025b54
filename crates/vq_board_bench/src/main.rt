//! Makes so many atomic steps of one kind, bare ones or those of a board, so that their time can be
//! measured from outside.
#![tactic(auto)]

mod bare;
mod batches;
mod ending;
mod handing;
mod kind;
mod opened;
mod phases;
mod row;
mod rows;
mod running;
mod steps;

use bare::Bare;
use kind::{Form, Kind, Phase};
use opened::opened;
use rows::Row;
use std::alloc::Global;
use std::process::ExitCode;
use std::{env, io};
use steps::steps;

const USAGE: &str = "usage: vq_board_bench KIND ROUNDS
    bare-load, bare-store, bare-cas, bare-add,
    job_state, recall, look, refer, turn
usage: vq_board_bench row FORM PHASE ROUNDS SIZE
    forms: idle, command, signal, whole
    phases: opened, submitted, made, assigned, found, released,
        known, bound, run, seen, completed, retired";

/// Makes so many steps of a kind. It says whether they came out as wanted.
fn alone(alloc: Global, kind: Kind, rounds: u64) -> Option<bool> {
    match kind {
        Kind::Bare(step) => {
            let (bare, seat) = Bare::new(alloc, 8).ok()?;
            Some(bare.steps(seat, step, rounds))
        }
        Kind::Board(step) => {
            let (board, pass) = opened(alloc)?;
            Some(steps(&board, pass, step, rounds))
        }
    }
}

/// Takes a row of batches up to a phase so often, as the words say.
fn in_phases(alloc: Global, words: &[String]) -> Option<bool> {
    let [form, phase, rounds, size] = words else {
        return None;
    };
    let row = Row {
        form: Form::named(form.as_str())?,
        last: Phase::named(phase.as_str())?,
        batches: size.as_str().parse::<u32>().ok()?,
    };
    let rounds = rounds.as_str().parse::<u64>().ok()?;
    row.take(alloc, rounds)
}

/// Does what the words ask for.
fn run(alloc: Global, words: &[String]) -> Option<bool> {
    let [_, name, rest @ ..] = words else {
        return None;
    };
    if name.as_str() == "row" {
        return in_phases(alloc, rest);
    }
    match rest {
        [rounds] => alone(
            alloc,
            Kind::named(name.as_str())?,
            rounds.as_str().parse::<u64>().ok()?,
        ),
        _ => None,
    }
}

fn main(rt: HostRuntime) -> io::Result<ExitCode> {
    let mut words = Vec::new(rt.alloc());
    for word in env::args(&rt)? {
        words.push(word)?;
    }
    let (said, status) = match run(rt.alloc(), words.as_slice()) {
        Some(true) => ("done", 0),
        Some(false) => ("failed", 1),
        None => (USAGE, if words.len() <= 1 { 0 } else { 2 }),
    };
    println!(rt; "{said}")?;
    Ok(ExitCode::from(status))
}
