//! The points that are taken for a batch, and looks at them before its release.
//!
//! Source: this project's own.
ghost use Rattle.std.specs.Prelude.{◌≡◌, ◌<◌, ◌⊎◌, ℕ, None, Some, IfOk, IfErr, IfSome, length, true};
ghost use Rattle.std.specs.List.{slice_get};
ghost use Rattle.vq_access.specs.Asking.{HasNamed, point_in};
ghost use Rattle.vq_access.specs.Taken.{AreTaken, HasLearned, SawUntaken};
ghost use Rattle.vq_access.specs.Timelines.{AreOf};
ghost use Rattle.vq_board.specs.Named.{plan_of, view, board_of, IsOf};
ghost use Rattle.vq_model.specs.Plan.{chain_of};
ghost use Rattle.vq_ground.specs.Lists.{has};
ghost use Rattle.vq_board_laws.specs.Words.{Carries};
ghost use Rattle.vq_board_laws.specs.PointSteps.{sees};
ghost use Rattle.vq_point.specs.Word.{bits_of};
ghost use Rattle.vq_timeline.specs.declared.timeline.LockedTimeline.{LockedTimeline as Timeline};

use crate::asking::Lists;
use crate::lists::timeline_at;
use vq_board::{Board, Pass};
use vq_order::Ordered;
use vq_point::{CARRYING, PointWord, REFERENCE, SIGNAL};
use vq_timeline::LockedTimeline;
use vq_timeline_core::OpPlace;
use vq_turns::outcome::Want;

/// The point that is taken for an operation which stands here, 0 where none is.
fn point_in(place: OpPlace) -> u32
    ensures { result ≡ point_in place }
{
    match place {
        OpPlace::Taken { point } => point,
        OpPlace::Without => 0,
        OpPlace::Pending { .. } => 0,
        OpPlace::Past => 0,
    }
}

/// The point that the lists of an operation's chain have taken for it, 0 where they have none or are in use. Nothing is
/// remembered of the take: turns of other actors of the same pass may lie between.
fn point_of<L: Lists>(
    lists: &L,
    ordered: &Ordered,
    board: &Board,
    timelines: &[LockedTimeline],
    op: u32,
) -> u32
    requires plan { plan_of board.now ≡ ordered.now }
    requires timelines { AreOf board.now timelines.now }
    requires exists { op < length ordered.now.ops }
    ensures below { result < length ordered.now.ops }
    ensures asked { (t : ℕ) (x : Timeline) → chain_of ordered.now op ≡ Some t → slice_get timelines.now t ≡ Some x →
        HasNamed ordered.now x op result ⊎ (L.tries lists.now × (result ≡ 0)) }
{
    let _lawful = ordered.plan();
    let found = board.op(op);
    let timeline = timeline_at(timelines, board, found.chain);
    match lists.place_of(timeline, board, op) {
        Some(place) => point_in(place),
        None => 0,
    }
}

/// The word of a point as a number.
fn bits_of(word: PointWord) -> u64
    ensures { result ≡ bits_of word }
{
    let signal = if word.signaled { SIGNAL } else { 0 };
    let carrying = if word.held { CARRYING } else { 0 };
    u64::from(word.op) + u64::from(word.refs) * REFERENCE + signal + carrying
}

/// Looks whether a point carries an operation. The error is the word that was found, which doesn't.
pub(crate) fn sees_taken(board: &Board, pass: &mut Pass, point: u32, op: u32) -> Result<(), u64>
    requires board { IsOf board.now pass.old }
    requires exists { point < length (plan_of board.now).ops }
    ensures board { board_of pass.new ≡ board_of pass.old }
    ensures taken { IfOk result (λ _. (n : ℕ) × Carries n op × (view pass.new ≡ sees (view pass.old) point n)) }
    ensures untaken { IfErr result (λ n. (¬ Carries n op) × (view pass.new ≡ sees (view pass.old) point n)) }
{
    let word = board.look(pass, point);
    if word.held && word.op == op {
        Ok(())
    } else {
        Err(bits_of(word))
    }
}

/// Looks at the points of operations, until one doesn't carry its operation: the want that this shows.
pub(crate) fn untaken<L: Lists>(
    lists: &L,
    ordered: &Ordered,
    board: &Board,
    timelines: &[LockedTimeline],
    pass: &mut Pass,
    ops: &[u32],
) -> Option<Want>
    requires plan { plan_of board.now ≡ ordered.now }
    requires timelines { AreOf board.now timelines.now }
    requires board { IsOf board.now pass.old }
    requires ops { (e : ℕ) → has ops.now e ≡ true → e < length ordered.now.ops }
    ensures pass { HasLearned pass.old pass.new }
    ensures taken { result ≡ None → AreTaken (view pass.new) ops.now (length ops.now) }
    ensures untaken { IfSome result (SawUntaken (view pass.old) (view pass.new) ops.now) }
{
    for k in 0..ops.len() {
        let op = ops[k];
        let point = point_of(lists, ordered, board, timelines, op);
        if let Err(found) = sees_taken(board, pass, point, op) {
            return Some(Want::Exchange { op, found });
        }
    }
    None
}
