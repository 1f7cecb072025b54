//! How the board is called: the batches of a script are taken through it by two threads, and what the
//! buffers hold then is printed.
#![tactic(auto)]

ghost use Rattle.std.specs.Prelude.{◌≡◌, [], ◌∷◌, IfSome};
ghost use Rattle.vq_model.specs.declared.plan.Answer.TheVariants.{Value};
ghost use Rattle.vq_model.specs.SlowRun.{final};
ghost use Rattle.vq_board.specs.Named.{told_of, bytes_of};

mod host;
mod opening;
mod plans;
mod rings;
mod seeing;
mod shelf;
mod submitting;
mod threads;

use std::alloc::Global;
use std::io;
use std::process::ExitCode;
use std::sync::Wait;
use std::thread::Threads;
use vq_board::{Board, Closed, Passes};
use vq_board_stage::plans::checked;
use vq_order::Ordered;

const SCRIPT: &str = "buffer X 4
buffer Y 4
timeline A 0
queue P threaded
queue Q threaded
submit P
fill X 0 4 7
signal A 1
end
submit Q
wait A 1
copy X 0 Y 0 4
end
host read A
";

/// Runs the plan over a board, where it is that of the script. The result is what the board leaves, and
/// the value that the host read.
fn run<R: Threads + Wait + Sync>(rt: &R, alloc: Global, ordered: &Ordered) -> Option<(Closed, u64)>
    ensures told { IfSome result (λ t. told_of t.0 ≡ record { job = 2; answer = Value t.1 } ∷ []) }
    ensures bytes { IfSome result (λ t. bytes_of t.0 ≡ final ordered.now) }
{
    let (board, passes) = opening::opened(alloc, ordered)?;
    let Passes {
        mut host,
        submits,
        rings,
        shelves,
    } = passes;
    let submits = opening::both_submits(&board, submits)?;
    let rings = opening::both_rings(&board, rings)?;
    let shelf = opening::shelf(&board, shelves)?;
    host::submit(&board, &mut host, 0);
    host::submit(&board, &mut host, 1);
    threads::run(rt, &board, submits, shelf, rings);
    let value = host::read(rt, &board, &mut host);
    Some((board.close(host), value))
}

fn main(rt: HostRuntime) -> io::Result<ExitCode> {
    let Some(ordered) = checked(rt.alloc(), SCRIPT.as_bytes()) else {
        return Ok(ExitCode::from(2));
    };
    let Some((closed, value)) = run(&rt, rt.alloc(), &ordered) else {
        return Ok(ExitCode::from(2));
    };
    println!(rt; "A is {value}")?;
    let buffers = closed.buffers();
    for buffer in 0..buffers.count() {
        let bytes = buffers.bytes(buffer);
        println!(rt; "buffer {buffer} is {bytes:?}")?;
    }
    Ok(ExitCode::SUCCESS)
}
