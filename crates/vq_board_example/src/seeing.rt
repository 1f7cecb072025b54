//! How Q's ring learns that the signal is made for which its batch waits.
ghost use Rattle.std.specs.Prelude.{◌≡◌, ◌<◌, true, length, [], ◌∷◌};
ghost use Rattle.vq_board_laws.specs.Knowledge.{KnowsMade};
ghost use Rattle.vq_board_laws.specs.Points.{reference};
ghost use Rattle.vq_board.specs.Named.{plan_of, view};
ghost use Rattle.vq_board_example.specs.FillAndCopy.{IsFillAndCopy};
ghost use Rattle.vq_board_example.specs.Holders.{IsIdle};

use std::sync::Wait;
use std::thread;
use vq_board::{Board, Lost, OpState, Pass, Referred};

/// Whether the ring sees the point signaled, to which it has a reference.
fn sees_signal(board: &Board, ring: &mut Pass, point: u32) -> bool
    requires exists { point < length (plan_of board.now).ops }
    requires ring { IsIdle board.now ring.old 1 (reference point 0 ∷ []) }
    ensures ring { IsIdle board.now ring.new 1 (reference point 0 ∷ []) }
    ensures made { result ≡ true → KnowsMade (plan_of board.now) (view ring.new).known 0 }
{
    board.look(ring, point).signaled
}

/// The ring looks at the point, to which it has a reference, until it is signaled.
fn watch<R: Wait>(rt: &R, board: &Board, ring: &mut Pass, point: u32)
    requires exists { point < length (plan_of board.now).ops }
    requires ring { IsIdle board.now ring.old 1 (reference point 0 ∷ []) }
    ensures ring { IsIdle board.now ring.new 1 (reference point 0 ∷ []) }
    ensures made { KnowsMade (plan_of board.now) (view ring.new).known 0 }
{
    for _ in rt.forever() {
        if sees_signal(board, ring, point) {
            return;
        }
        thread::yield_now();
    }
    unreachable!()
}

/// The ring gives its reference back.
fn give_back<R: Wait>(rt: &R, board: &Board, ring: &mut Pass, point: u32)
    requires exists { point < length (plan_of board.now).ops }
    requires ring { IsIdle board.now ring.old 1 (reference point 0 ∷ []) }
    requires made { KnowsMade (plan_of board.now) (view ring.old).known 0 }
    ensures ring { IsIdle board.now ring.new 1 [] }
    ensures made { KnowsMade (plan_of board.now) (view ring.new).known 0 }
{
    for _ in rt.forever() {
        match board.unrefer(ring, point, 0) {
            Ok(()) => return,
            // the word was changed between load and exchange: load it again
            Err(Lost { found: _ }) => {}
        }
    }
    unreachable!()
}

/// The ring waits at the point that the signal was found bound to. It is false where it found no signal
/// there.
fn see_at<R: Wait>(rt: &R, board: &Board, ring: &mut Pass, point: u32) -> bool
    requires plan { IsFillAndCopy (plan_of board.now) }
    requires exists { point < length (plan_of board.now).ops }
    requires ring { IsIdle board.now ring.old 1 [] }
    ensures ring { IsIdle board.now ring.new 1 [] }
    ensures made { result ≡ true → KnowsMade (plan_of board.now) (view ring.new).known 0 }
{
    match board.refer(ring, point, 0) {
        Referred::Held => {
            watch(rt, board, ring, point);
            give_back(rt, board, ring, point);
            true
        }
        // the point has been freed, so the signal is past: `recall` will say so
        Referred::MovedOn { found: _ } => false,
        // the word was changed between load and exchange: try again
        Referred::Lost { found: _ } => false,
    }
}

/// The ring tries to see the signal made.
fn see<R: Wait>(rt: &R, board: &Board, ring: &mut Pass) -> bool
    requires plan { IsFillAndCopy (plan_of board.now) }
    requires ring { IsIdle board.now ring.old 1 [] }
    ensures ring { IsIdle board.now ring.new 1 [] }
    ensures made { result ≡ true → KnowsMade (plan_of board.now) (view ring.new).known 0 }
{
    match board.recall(ring, 0) {
        // it has no point yet: look again later
        OpState::Unbound => false,
        OpState::Bound { point } => see_at(rt, board, ring, point),
        OpState::Past => true,
    }
}

/// The ring looks until it knows that the signal is made.
pub(crate) fn await_signal<R: Wait>(rt: &R, board: &Board, ring: &mut Pass)
    requires plan { IsFillAndCopy (plan_of board.now) }
    requires ring { IsIdle board.now ring.old 1 [] }
    ensures ring { IsIdle board.now ring.new 1 [] }
    ensures made { KnowsMade (plan_of board.now) (view ring.new).known 0 }
{
    for _ in rt.forever() {
        if see(rt, board, ring) {
            return;
        }
        thread::yield_now();
    }
    unreachable!()
}
