//! Steps of a board, again and again.
ghost use Rattle.std.specs.Prelude.{true, false, IfSome};
ghost use Rattle.vq_board_bench.specs.Idle.{IsWorker, IsReferring};

use crate::kind::{BoardStep, Question};
use std::mem::size_of;
use vq_board::{Board, JobState, OpState, Pass, Referred};

// What a thread carries of a board.
const _: () = prove!(size_of::<Pass>() == 40);

/// Takes the turn, where it is free, and gives it back.
fn turn(board: &Board, pass: &mut Pass)
    requires { IsWorker board.now pass.old }
    ensures { IsWorker board.now pass.new }
{
    if let Some(held) = board.take_memory(pass) {
        board.give_memory(pass, held);
    }
}

/// Takes a reference. It says whether the pass has it, or nothing where the point carries another
/// operation.
fn refer(board: &Board, pass: &mut Pass) -> Option<bool>
    requires { IsReferring board.now pass.old false }
    ensures { IfSome result (λ holds. IsReferring board.now pass.new holds) }
{
    match board.refer(pass, 0, 0) {
        Referred::Held => Some(true),
        Referred::Lost { found: _ } => Some(false),
        Referred::MovedOn { found: _ } => None,
    }
}

/// Gives a reference back. It says whether the pass still has it.
fn unrefer(board: &Board, pass: &mut Pass) -> bool
    requires { IsReferring board.now pass.old true }
    ensures { IsReferring board.now pass.new result }
{
    board.unrefer(pass, 0, 0).is_err()
}

/// Takes a reference, or gives it back where the pass has it.
fn reference(board: &Board, pass: &mut Pass, holds: bool) -> Option<bool>
    requires { IsReferring board.now pass.old holds }
    ensures { IfSome result (λ h. IsReferring board.now pass.new h) }
{
    if holds {
        Some(unrefer(board, pass))
    } else {
        refer(board, pass)
    }
}

/// Whether the first job is started, the first operation unbound or the first point unsignaled.
fn asked(board: &Board, pass: &mut Pass, question: Question) -> bool
    requires { IsWorker board.now pass.old }
    ensures { IsWorker board.now pass.new }
{
    match question {
        Question::Job => board.job_state(pass, 0) == JobState::Started,
        Question::Recall => board.recall(pass, 0) == OpState::Unbound,
        Question::Look => {
            let word = board.look(pass, 0);
            word.held && !word.signaled
        }
    }
}

/// Asks so often, four times a round. It says whether the answer was always yes.
fn asks(board: &Board, pass: &mut Pass, question: Question, steps: u64) -> bool
    requires { IsWorker board.now pass.old }
{
    for _ in 0..steps / 4 {
        if !asked(board, pass, question)
            || !asked(board, pass, question)
            || !asked(board, pass, question)
            || !asked(board, pass, question)
        {
            return false;
        }
    }
    true
}

/// Takes the turn, where it is free, and gives it back, so often.
fn turns(board: &Board, pass: &mut Pass, rounds: u64) -> bool
    requires { IsWorker board.now pass.old }
{
    for _ in 0..rounds {
        turn(board, pass);
    }
    true
}

/// Takes a reference and gives it back in turns, so often. It says whether the point still carried the
/// operation each time.
fn references(board: &Board, pass: &mut Pass, rounds: u64) -> bool
    requires { IsReferring board.now pass.old false }
{
    let mut holds = false;
    for _ in 0..rounds {
        let Some(now_holds) = reference(board, pass, holds) else {
            return false;
        };
        holds = now_holds;
    }
    true
}

/// Makes so many steps of a kind. It says whether they came out as wanted.
pub(crate) fn steps(board: &Board, mut pass: Pass, step: BoardStep, rounds: u64) -> bool
    requires { IsReferring board.now pass false }
{
    match step {
        BoardStep::Ask(question) => asks(board, &mut pass, question, rounds),
        BoardStep::Reference => references(board, &mut pass, rounds),
        BoardStep::Turn => turns(board, &mut pass, rounds),
    }
}
