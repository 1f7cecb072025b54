//! The calls of a board and of a locked timeline for a batch, from its submit until its signal is made.
ghost use Rattle.std.specs.Prelude.{◌≡◌, true, [], ◌∷◌, IfSome};
ghost use Rattle.vq_board.specs.Named.{plan_of};
ghost use Rattle.vq_board_stage.specs.Holders.{HasSubmitted, HasReleased};
ghost use Rattle.vq_timeline_stage.specs.Acting.{HasRunFirst};
ghost use Rattle.vq_timeline_stage.specs.Locked.{IsFirstAt};
ghost use Rattle.vq_timeline_stage.specs.Scenes.{AreIdle};
ghost use Rattle.vq_timeline_stage.specs.TwoBatches.{IsOfTwoBatches};

use std::sync::Wait;
use vq_board::{Board, Pass};
use vq_timeline::LockedTimeline;
use vq_timeline_core::{Found, Taken};
use vq_timeline_stage::host::submit;
use vq_timeline_stage::rings::run_first;
use vq_timeline_stage::submitting::release_first;
use vq_timeline_stage::watched::Actors;

/// What the host reads before, the point that it waits for, and what it reads after the batch has run.
#[derive(Clone, Copy)]
pub(crate) struct Seen {
    pub(crate) before: u64,
    pub(crate) point: u32,
    pub(crate) after: u64,
}

/// The signal of the batch gets a point from the timeline's lists: the first that is made. The lock is taken for this
/// one call; who has a guard may make several.
fn gets_point<R: Wait>(rt: &R, board: &Board, timeline: &LockedTimeline) -> bool
    requires plan { IsOfTwoBatches (plan_of board.now) }
    requires timeline { IsFirstAt board.now timeline.now }
{
    let mut guard = timeline.lock(rt, board);
    let taken = guard.take_for(timeline, board, 0);
    timeline.unlock(board, guard);
    taken == Ok(Taken::Fresh(0))
}

/// The signal is pending: it is bound to that point.
fn is_bound<R: Wait>(rt: &R, board: &Board, timeline: &LockedTimeline) -> bool
    requires plan { IsOfTwoBatches (plan_of board.now) }
    requires timeline { IsFirstAt board.now timeline.now }
{
    let mut guard = timeline.lock(rt, board);
    let bound = guard.bind(timeline, board, 0);
    timeline.unlock(board, guard);
    bound == Ok(0)
}

/// Submit: the batch is written, its signal gets a point from the timeline's lists, the batch is handed on, and then its
/// signal is pending. Only for the lock of this timeline is waited.
fn hand_on<R: Wait>(
    rt: &R,
    board: &Board,
    timeline: &LockedTimeline,
    host: &mut Pass,
    submitter: &mut Pass,
) -> bool
    requires plan { IsOfTwoBatches (plan_of board.now) }
    requires timeline { IsFirstAt board.now timeline.now }
    requires host { HasSubmitted board.now host.old 0 }
    requires submitter { HasReleased board.now submitter.old 0 [] }
    ensures host { HasSubmitted board.now host.new 1 }
    ensures submitter { result ≡ true → HasReleased board.now submitter.new 0 (0 ∷ []) }
{
    submit(board, host, 0);
    gets_point(rt, board, timeline)
        && release_first(board, submitter)
        && is_bound(rt, board, timeline)
}

/// Wait: which point shows the value 2, where a driver waits for the sync of that point. No lock is taken.
fn pending_point(board: &Board, timeline: &LockedTimeline, host: &mut Pass) -> Option<u32>
    requires plan { IsOfTwoBatches (plan_of board.now) }
    requires timeline { IsFirstAt board.now timeline.now }
    requires host { HasSubmitted board.now host.old 1 }
    ensures { HasSubmitted board.now host.new 1 }
{
    match timeline.find(board, host, 2) {
        Found::Pending { point, .. } => Some(point),
        Found::Past { .. } | Found::NotYet { .. } => None,
    }
}

/// Read: the payload, from the words alone.
fn payload(board: &Board, timeline: &LockedTimeline, host: &mut Pass, submitted: u32) -> u64
    requires timeline { IsFirstAt board.now timeline.now }
    requires host { HasSubmitted board.now host.old submitted }
    ensures { HasSubmitted board.now host.new submitted }
{
    let _ = submitted;
    timeline.read(board, host)
}

/// All of that for the first batch, with what is read before and after.
pub(crate) fn call<R: Wait>(
    rt: &R,
    board: &Board,
    timeline: &LockedTimeline,
    actors: &mut Actors,
) -> Option<Seen>
    requires plan { IsOfTwoBatches (plan_of board.now) }
    requires timeline { IsFirstAt board.now timeline.now }
    requires actors { AreIdle board.now actors.old }
    ensures host { IfSome result (λ _. HasSubmitted board.now actors.new.host 1) }
    ensures submitter { IfSome result (λ _. HasReleased board.now actors.new.submitter 0 (0 ∷ [])) }
    ensures ring { IfSome result (λ _. HasRunFirst board.now actors.new.ring) }
{
    let before = payload(board, timeline, &mut actors.host, 0);
    if !hand_on(rt, board, timeline, &mut actors.host, &mut actors.submitter) {
        return None;
    }
    let point = pending_point(board, timeline, &mut actors.host)?;
    if !run_first(board, &mut actors.ring) {
        return None;
    }
    let after = payload(board, timeline, &mut actors.host, 1);
    Some(Seen {
        before,
        point,
        after,
    })
}
