//! The steps of the timeline's shelf: it gives the signal a point, binds it, completes it and frees the
//! point.
ghost use Rattle.std.specs.Prelude.{◌≡◌, ◌<◌, ◌≤◌, true, length, [], ◌∷◌};
ghost use Rattle.vq_board_laws.specs.declared.view.Role.TheVariants.{Shelf};
ghost use Rattle.vq_board_laws.specs.Knowledge.{KnowsMade, KnowsSoFar, state_number};
ghost use Rattle.vq_board_laws.specs.declared.view.JobState.TheVariants.{Released};
ghost use Rattle.vq_board.specs.Named.{plan_of, view};
ghost use Rattle.vq_board_stage.specs.Dealing.{IsNew};
ghost use Rattle.vq_board_example.specs.FillAndCopy.{IsFillAndCopy};
ghost use Rattle.vq_board_example.specs.Holders.{HasPoint};

use std::sync::Wait;
use std::thread;
use vq_board::{Board, InUse, JobState, Pass};

/// The shelf makes a point and gives it to the signal. Its number is the result.
pub(crate) fn give_point(board: &Board, shelf: &mut Pass) -> u32
    requires plan { IsFillAndCopy (plan_of board.now) }
    requires shelf { IsNew board.now shelf.old (Shelf 0) }
    ensures exists { result < length (plan_of board.now).ops }
    ensures shelf { HasPoint board.now shelf.new result [] [] }
{
    let point = board.make(shelf);
    board.assign(shelf, point, 0);
    point
}

/// Whether a job in this state is released.
fn is_released(state: JobState) -> bool
    ensures { result ≡ true → 2 ≤ state_number state }
{
    match state {
        JobState::Waiting | JobState::Submitted => false,
        _ => true,
    }
}

/// Whether the shelf finds P's batch released.
fn finds_released(board: &Board, shelf: &mut Pass, point: u32) -> bool
    requires plan { IsFillAndCopy (plan_of board.now) }
    requires shelf { HasPoint board.now shelf.old point [] [] }
    ensures shelf { HasPoint board.now shelf.new point [] [] }
    ensures released { result ≡ true → KnowsSoFar (view shelf.new).known 0 Released }
{
    is_released(board.job_state(shelf, 0))
}

/// The shelf binds the signal to its point, once the batch is released.
pub(crate) fn bind<R: Wait>(rt: &R, board: &Board, shelf: &mut Pass, point: u32)
    requires plan { IsFillAndCopy (plan_of board.now) }
    requires shelf { HasPoint board.now shelf.old point [] [] }
    ensures { HasPoint board.now shelf.new point (0 ∷ []) [] }
{
    for _ in rt.forever() {
        if finds_released(board, shelf, point) {
            board.bind(shelf, 0, point);
            return;
        }
        thread::yield_now();
    }
    unreachable!()
}

/// Whether the shelf finds the point signaled.
fn finds_signaled(board: &Board, shelf: &mut Pass, point: u32) -> bool
    requires plan { IsFillAndCopy (plan_of board.now) }
    requires exists { point < length (plan_of board.now).ops }
    requires shelf { HasPoint board.now shelf.old point (0 ∷ []) [] }
    ensures shelf { HasPoint board.now shelf.new point (0 ∷ []) [] }
    ensures made { result ≡ true → KnowsMade (plan_of board.now) (view shelf.new).known 0 }
{
    board.look(shelf, point).signaled
}

/// The shelf completes the signal, once it is made.
pub(crate) fn complete<R: Wait>(rt: &R, board: &Board, shelf: &mut Pass, point: u32)
    requires plan { IsFillAndCopy (plan_of board.now) }
    requires exists { point < length (plan_of board.now).ops }
    requires shelf { HasPoint board.now shelf.old point (0 ∷ []) [] }
    ensures { HasPoint board.now shelf.new point (0 ∷ []) (0 ∷ []) }
{
    for _ in rt.forever() {
        if finds_signaled(board, shelf, point) {
            board.complete(shelf, 0);
            return;
        }
        thread::yield_now();
    }
    unreachable!()
}

/// The shelf frees the point, once nobody refers to it.
pub(crate) fn retire<R: Wait>(rt: &R, board: &Board, shelf: &mut Pass, point: u32)
    requires exists { point < length (plan_of board.now).ops }
    requires shelf { HasPoint board.now shelf.old point (0 ∷ []) (0 ∷ []) }
{
    for _ in rt.forever() {
        match board.retire(shelf, point) {
            Ok(()) => return,
            // someone still refers to the point, or its word was changed just now: later
            Err(InUse { found: _ }) => thread::yield_now(),
        }
    }
    unreachable!()
}
