//! Batches that have nothing to do with other jobs, run by their rings.
ghost use Rattle.std.specs.Prelude.{◌≡◌, ◌+◌, ◌<◌, true, length, Some};
ghost use Rattle.std.specs.List.{slice_get};
ghost use Rattle.vq_model.specs.Plan.{commands_of};
ghost use Rattle.vq_board_laws.specs.Ends.{KnowsAllFinished};
ghost use Rattle.vq_board.specs.Named.{plan_of, view, IsOf};
ghost use Rattle.vq_board_stage.specs.Batches.{IsAlone, IsReady, IsRunning, IsHolding};

use crate::alone::start;
use std::sync::Wait;
use std::thread;
use vq_board::{Board, JobState, MemoryTurn, Pass};

/// Takes the turn, as soon as it is free.
fn take_turn<R: Wait>(rt: &R, board: &Board, pass: &mut Pass, j: u32) -> MemoryTurn
    requires running { IsRunning board.now pass.old j }
    ensures holding { IsHolding board.now pass.new j }
    ensures entered { (view pass.new).entered ≡ (view pass.old).entered }
{
    for _ in rt.forever() {
        if let Some(held) = board.take_memory(pass) {
            return held;
        }
        thread::yield_now();
    }
    unreachable!()
}

/// Takes the turn and gives it back, again and again.
fn take_turns<R: Wait>(rt: &R, board: &Board, pass: &mut Pass, j: u32)
    requires running { IsRunning board.now pass.old j }
    ensures running { IsRunning board.now pass.new j }
    ensures entered { (view pass.new).entered ≡ (view pass.old).entered }
{
    for _ in 0..1000u32 {
        let held = take_turn(rt, board, pass, j);
        board.give_memory(pass, held);
    }
}

/// Makes the next command of the batch, as soon as the turn is free.
#[tactic(auto, using(crate::proofs::Asks::needs_nothing))]
fn run_command<R: Wait>(rt: &R, board: &Board, pass: &mut Pass, j: u32, command: u32)
    requires running { IsRunning board.now pass.old j }
    requires next { slice_get (commands_of (plan_of board.now) j) (view pass.old).entered ≡ Some command }
    requires exists { command < length (plan_of board.now).commands }
    ensures running { IsRunning board.now pass.new j }
    ensures entered { (view pass.new).entered ≡ (view pass.old).entered + 1 }
{
    let mut held = take_turn(rt, board, pass, j);
    board.enter(pass, &mut held, command);
    board.give_memory(pass, held);
}

/// Makes the commands of the batch, each with a turn of its own and after many turns without one, and
/// finishes it.
#[tactic(auto, using(crate::proofs::Asks::needs_nothing))]
fn run<R: Wait>(rt: &R, board: &Board, mut pass: Pass, j: u32, commands: &[u32])
    requires running { IsRunning board.now pass j }
    requires entered { (view pass).entered ≡ 0 }
    requires alone { IsAlone (plan_of board.now) j commands.now }
{
    for command in commands {
        take_turns(rt, board, &mut pass, j);
        run_command(rt, board, &mut pass, j, *command);
    }
    board.finish(&mut pass, j);
}

/// Starts and runs the batch of the ring's pass, where it is released. It says whether it did.
pub fn work<R: Wait>(rt: &R, board: &Board, mut pass: Pass, j: u32, commands: &[u32]) -> bool
    requires { IsReady board.now pass j commands.now }
{
    if !start(board, &mut pass, j, commands) {
        return false;
    }
    run(rt, board, pass, j, commands);
    true
}

/// Whether the host's pass finds all jobs of the plan finished.
pub fn all_finished(board: &Board, host: &mut Pass, jobs: u32) -> bool
    requires host { IsOf board.now host.old }
    requires count { length (plan_of board.now).jobs ≡ jobs }
    ensures host { IsOf board.now host.new }
    ensures role { (view host.new).role ≡ (view host.old).role }
    ensures all { result ≡ true → KnowsAllFinished (plan_of board.now) (view host.new) }
{
    for j in 0..jobs {
        if board.job_state(host, j) != JobState::Finished {
            return false;
        }
    }
    true
}
