//! Points that an operation gets and is bound to, each by one call under the lock of the timeline.
ghost use Rattle.std.specs.Prelude.{◌≡◌, Some};
ghost use Rattle.vq_board.specs.Named.{plan_of};
ghost use Rattle.vq_model.specs.Plan.{chain_of};
ghost use Rattle.vq_timeline.specs.Named.{IsAt, chain_at};

use std::sync::Wait;
use vq_board::Board;
use vq_timeline::LockedTimeline;
use vq_timeline_core::Taken;

/// Whether an operation gets a point, the new one with the operation's number.
pub(crate) fn gets_point<R: Wait>(rt: &R, board: &Board, timeline: &LockedTimeline, op: u32) -> bool
    requires timeline { IsAt board.now timeline.now }
    requires op { chain_of (plan_of board.now) op ≡ Some (chain_at timeline.now) }
{
    let mut guard = timeline.lock(rt, board);
    let taken = guard.take_for(timeline, board, op);
    timeline.unlock(board, guard);
    taken == Ok(Taken::Fresh(op))
}

/// Whether an operation is bound to that point.
pub(crate) fn is_bound<R: Wait>(rt: &R, board: &Board, timeline: &LockedTimeline, op: u32) -> bool
    requires timeline { IsAt board.now timeline.now }
    requires op { chain_of (plan_of board.now) op ≡ Some (chain_at timeline.now) }
{
    let mut guard = timeline.lock(rt, board);
    let bound = guard.bind(timeline, board, op);
    timeline.unlock(board, guard);
    bound == Ok(op)
}
