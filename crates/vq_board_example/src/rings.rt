//! The steps of the rings, the device's side of the queues: each runs its batch.
ghost use Rattle.std.specs.Prelude.{◌≡◌, ◌<◌, ◌+◌, true, length, [], ◌∷◌};
ghost use Rattle.vq_model.specs.Plan.{commands_of};
ghost use Rattle.vq_board_laws.specs.declared.view.Fact.TheVariants.{Job};
ghost use Rattle.vq_board_laws.specs.declared.view.JobState.TheVariants.{Released};
ghost use Rattle.vq_board_laws.specs.Knowledge.{Knows};
ghost use Rattle.vq_board.specs.Named.{plan_of, view};
ghost use Rattle.vq_board_example.specs.FillAndCopy.{IsFillAndCopy};
ghost use Rattle.vq_board_example.specs.Holders.{IsIdle, KnowsAllNeeds, Runs, HasTurn};

use crate::seeing::await_signal;
use std::sync::Wait;
use std::thread;
use vq_board::{Board, JobState, MemoryTurn, Pass, Unbound};

/// Whether the ring finds its batch released.
fn finds_released(board: &Board, ring: &mut Pass, job: u32) -> bool
    requires exists { job < length (plan_of board.now).jobs }
    requires ring { IsIdle board.now ring.old job [] }
    requires reached { KnowsAllNeeds board.now ring.old job }
    ensures ring { IsIdle board.now ring.new job [] }
    ensures reached { KnowsAllNeeds board.now ring.new job }
    ensures released { result ≡ true → Knows (view ring.new).known (Job job Released) }
{
    board.job_state(ring, job) == JobState::Released
}

/// The ring starts its batch, once that is released.
fn start<R: Wait>(rt: &R, board: &Board, ring: &mut Pass, job: u32)
    requires plan { IsFillAndCopy (plan_of board.now) }
    requires batch { job < 2 }
    requires ring { IsIdle board.now ring.old job [] }
    requires reached { KnowsAllNeeds board.now ring.old job }
    ensures { Runs board.now ring.new job 0 0 }
{
    for _ in rt.forever() {
        if finds_released(board, ring, job) {
            board.start(ring, job);
            return;
        }
        thread::yield_now();
    }
    unreachable!()
}

/// The ring takes the turn over the buffers, once that is free.
fn take_turn<R: Wait>(rt: &R, board: &Board, ring: &mut Pass, job: u32) -> MemoryTurn
    requires { Runs board.now ring.old job 0 0 }
    ensures { HasTurn board.now ring.new job }
{
    for _ in rt.forever() {
        match board.take_memory(ring) {
            Some(turn) => return turn,
            // another ring has it: later
            None => thread::yield_now(),
        }
    }
    unreachable!()
}

/// The ring makes its batch's command.
fn make_command<R: Wait>(rt: &R, board: &Board, ring: &mut Pass, job: u32, command: u32)
    requires exists { command < length (plan_of board.now).commands }
    requires its_own { commands_of (plan_of board.now) job ≡ command ∷ [] }
    requires ring { Runs board.now ring.old job 0 0 }
    ensures { Runs board.now ring.new job 1 0 }
{
    let mut turn = take_turn(rt, board, ring, job);
    board.enter(ring, &mut turn, command);
    board.give_memory(ring, turn);
}

/// P's ring makes the signal, once the shelf has bound it.
fn signal<R: Wait>(rt: &R, board: &Board, ring: &mut Pass)
    requires plan { IsFillAndCopy (plan_of board.now) }
    requires ring { Runs board.now ring.old 0 1 0 }
    ensures { Runs board.now ring.new 0 1 1 }
{
    for _ in rt.forever() {
        match board.signal(ring, 0) {
            Ok(()) => return,
            // it has no point yet: later
            Err(Unbound) => thread::yield_now(),
        }
    }
    unreachable!()
}

/// P's ring runs its batch: it fills and signals.
#[tactic(auto, using(crate::proofs::Asked::needs_nothing))]
pub(crate) fn run_fill<R: Wait>(rt: &R, board: &Board, ring: &mut Pass)
    requires plan { IsFillAndCopy (plan_of board.now) }
    requires ring { IsIdle board.now ring.old 0 [] }
{
    start(rt, board, ring, 0);
    make_command(rt, board, ring, 0, 0);
    signal(rt, board, ring);
    board.finish(ring, 0);
}

/// Q's ring runs its batch: once the signal is made, it copies.
pub(crate) fn run_copy<R: Wait>(rt: &R, board: &Board, ring: &mut Pass)
    requires plan { IsFillAndCopy (plan_of board.now) }
    requires ring { IsIdle board.now ring.old 1 [] }
{
    await_signal(rt, board, ring);
    start(rt, board, ring, 1);
    make_command(rt, board, ring, 1, 1);
    board.finish(ring, 1);
}
