//! Looks behind the events that the lists of a chain made: whether what they did stands on the board.
//!
//! Source: this project's own.
ghost use Rattle.std.specs.Prelude.{◌≡◌, ◌<◌, None, IfSome, length};
ghost use Rattle.vq_access.specs.Asking.{take_of};
ghost use Rattle.vq_access.specs.LookedBehind.{IsThere, IsUnshown, LooksBehind};
ghost use Rattle.vq_access.specs.Taken.{HasLearned};
ghost use Rattle.vq_access.specs.Timelines.{collection};
ghost use Rattle.vq_access_laws.specs.Causes.{IsMade};
ghost use Rattle.vq_board.specs.Named.{plan_of, view, IsOf};
ghost use Rattle.vq_timeline.specs.Answers.{taken_point};

use crate::takings::sees_taken;
use vq_board::{Board, OpState, Pass};
use vq_model::plan::Event;
use vq_timeline::Collected;
use vq_timeline_core::Taken;

/// The point that was taken.
fn taken_point(taken: Taken) -> u32
    ensures { result ≡ taken_point taken }
{
    match taken {
        Taken::Reused(point) => point,
        Taken::Fresh(point) => point,
    }
}

/// Looks behind a take, whether the point carries the operation.
pub(crate) fn sees_given(board: &Board, pass: &mut Pass, op: u32, taken: Taken) -> bool
    requires board { IsOf board.now pass.old }
    requires exists { taken_point taken < length (plan_of board.now).ops }
    ensures { LooksBehind pass.old pass.new (take_of op taken) result }
{
    match sees_taken(board, pass, taken_point(taken), op) {
        Ok(()) => true,
        Err(_) => false,
    }
}

/// Looks behind a bind, whether the operation is bound to the point, or past.
pub(crate) fn sees_bound(board: &Board, pass: &mut Pass, op: u32, point: u32) -> bool
    requires board { IsOf board.now pass.old }
    requires exists { op < length (plan_of board.now).ops }
    ensures { LooksBehind pass.old pass.new (Event.Bind op point) result }
{
    match board.recall(pass, op) {
        OpState::Unbound => false,
        OpState::Bound { point: found } => found == point,
        OpState::Past => true,
    }
}

/// Looks behind a completion, whether the operation is past.
fn sees_past(board: &Board, pass: &mut Pass, op: u32) -> bool
    requires board { IsOf board.now pass.old }
    requires exists { op < length (plan_of board.now).ops }
    ensures { LooksBehind pass.old pass.new (Event.Complete op) result }
{
    match board.recall(pass, op) {
        OpState::Unbound => false,
        OpState::Bound { .. } => false,
        OpState::Past => true,
    }
}

/// Looks behind a freeing, whether the point isn't signaled.
fn sees_freed(board: &Board, pass: &mut Pass, point: u32) -> bool
    requires board { IsOf board.now pass.old }
    requires exists { point < length (plan_of board.now).ops }
    ensures { LooksBehind pass.old pass.new (Event.Free point) result }
{
    !board.look(pass, point).signaled
}

/// The event of a collection, where a look behind it shows it.
pub(crate) fn sees_collected(board: &Board, pass: &mut Pass, collected: Collected) -> Option<Event>
    requires board { IsOf board.now pass.old }
    requires exists { IsThere (plan_of board.now) collected }
    ensures learned { HasLearned pass.old pass.new }
    ensures event { IfSome result (λ event. collection collected ≡ Some event) }
    ensures shown { IfSome result (λ event. IsMade (view pass.new) event (length (view pass.old).steps)) }
    ensures unshown { result ≡ None → IfSome (collection collected) (IsUnshown (view pass.new)) }
{
    match collected {
        Collected::Completed(op) => {
            if sees_past(board, pass, op) {
                Some(Event::Complete { op })
            } else {
                None
            }
        }
        Collected::Freed(point) => {
            if sees_freed(board, pass, point) {
                Some(Event::Free { point })
            } else {
                None
            }
        }
        Collected::Nothing => None,
    }
}
