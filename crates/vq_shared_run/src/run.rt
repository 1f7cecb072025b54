//! What the actors of a run step over.
//!
//! Source: this project's own.
ghost use Rattle.std.specs.Prelude.{◌≡◌};
ghost use Rattle.vq_access.specs.Timelines.{AreOf};
ghost use Rattle.vq_actor.specs.Companies.{IsCompanyOf};
ghost use Rattle.vq_board.specs.Named.{plan_of};

use vq_actor::Company;
use vq_board::Board;
use vq_order::Ordered;
use vq_timeline::LockedTimeline;

/// What the actors of a run step over: the plan, its board with its timelines, and the programs of the actors.
#[derive(Drop)]
pub struct Run {
    pub(crate) ordered: Ordered,
    pub(crate) board: Board,
    pub(crate) timelines: Vec<LockedTimeline>,
    pub(crate) company: Company,
    ghost planned: { plan_of board ≡ ordered },
    ghost locks: { AreOf board timelines.items },
    ghost crewed: { IsCompanyOf ordered company },
}

impl Run {
    /// Of these parts.
    pub(crate) fn new(
        ordered: Ordered,
        board: Board,
        timelines: Vec<LockedTimeline>,
        company: Company,
    ) -> Run
        requires plan { plan_of board ≡ ordered }
        requires timelines { AreOf board timelines.items }
        requires company { IsCompanyOf ordered company }
        ensures plan { result.ordered ≡ ordered }
        ensures board { result.board ≡ board }
    {
        Run {
            ordered,
            board,
            timelines,
            company,
        }
    }
}
