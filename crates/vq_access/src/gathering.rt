//! What turns go over, put together and asked for its parts.
//!
//! Source: this project's own.
ghost use Rattle.std.specs.Prelude.{◌≡◌};
ghost use Rattle.vq_access.specs.Grounding.{plan_at, board_at, lists_at};
ghost use Rattle.vq_access.specs.Timelines.{AreOf};
ghost use Rattle.vq_board.specs.Named.{plan_of};

use crate::grounds::Grounds;
use vq_board::Board;
use vq_order::Ordered;
use vq_timeline::LockedTimeline;

impl<'a, L> Grounds<'a, L> {
    /// Who asks the lists, the plan, its board, and a timeline for each of its chains.
    pub fn new(
        lists: &'a L,
        ordered: &'a Ordered,
        board: &'a Board,
        timelines: &'a [LockedTimeline],
    ) -> Grounds<'a, L>
        requires plan { plan_of board.now ≡ ordered.now }
        requires timelines { AreOf board.now timelines.now }
        ensures plan { plan_at result ≡ ordered.now }
        ensures board { board_at result ≡ board.now }
    {
        Grounds {
            lists,
            ordered,
            board,
            timelines,
        }
    }

    /// Who asks the lists.
    pub fn lists(&self) -> &'a L
        ensures { result.now ≡ lists_at self.now }
    {
        self.lists
    }

    /// The plan.
    pub fn ordered(&self) -> &'a Ordered
        ensures { result.now ≡ plan_at self.now }
    {
        self.ordered
    }

    /// The plan's board.
    pub fn board(&self) -> &'a Board
        ensures { result.now ≡ board_at self.now }
    {
        self.board
    }
}
