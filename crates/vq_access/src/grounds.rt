//! What turns go over.
//!
//! Source: this project's own.
ghost use Rattle.std.specs.Prelude.{◌≡◌};
ghost use Rattle.vq_access.specs.Timelines.{AreOf};
ghost use Rattle.vq_board.specs.Named.{plan_of};

use vq_board::Board;
use vq_order::Ordered;
use vq_timeline::LockedTimeline;

/// What turns at a board go over: the plan, its board and its timelines, and who asks their lists.
#[derive(Drop)]
pub struct Grounds<'a, L> {
    pub(crate) lists: &'a L,
    pub(crate) ordered: &'a Ordered,
    pub(crate) board: &'a Board,
    pub(crate) timelines: &'a [LockedTimeline],
    ghost planned: { plan_of board.now ≡ ordered.now },
    ghost locks: { AreOf board.now timelines.now },
}
