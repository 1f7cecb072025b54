//! A board whose chains are waited for.
//!
//! Source: this project's own.
ghost use Rattle.std.specs.Prelude.{ℕ, ◌≡◌, length};
ghost use Rattle.vq_board.specs.Named.{plan_of};
ghost use Rattle.vq_poll.specs.Watching.{AreTimelines, IsWatched};

use crate::bell::Bell;
use vq_board::Board;
use vq_order::Ordered;
use vq_timeline::LockedTimeline;

/// A board with its timelines and a bell for each, one for each chain of its plan, in order.
#[derive(Clone, Copy)]
pub struct WatchedBoard<'a> {
    pub(crate) board: &'a Board,
    pub(crate) timelines: &'a [LockedTimeline],
    pub(crate) bells: &'a [Bell],
}

impl<'a> WatchedBoard<'a> {
    /// The board of a plan, to be waited on.
    pub fn new(
        ordered: &Ordered,
        board: &'a Board,
        timelines: &'a [LockedTimeline],
        bells: &'a [Bell],
    ) -> WatchedBoard<'a>
        requires plan { plan_of board.now ≡ ordered.now }
        requires timelines { AreTimelines board.now timelines.now }
        requires bells { length bells.now ≡ length ordered.now.chains }
        ensures watched { IsWatched result }
        ensures loans { (result.board.now ≡ board.now) × (result.timelines.now ≡ timelines.now)
            × (result.bells.now ≡ bells.now) }
    {
        // its clauses say that the plan is a lawful one
        let _ = ordered.plan();
        WatchedBoard {
            board,
            timelines,
            bells,
        }
    }
}
