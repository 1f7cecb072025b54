//! What a handle holds.
//!
//! Source: this project's own.
ghost use Rattle.std.specs.Prelude.{◌≡◌};
ghost use Rattle.std.specs.List.{slice_get};
ghost use Rattle.vq_c.specs.Objects.{plan_of};
ghost use Rattle.vq_model.specs.Plan.{line_of_job};

use vq_board_run::line_of;
use vq_core_run::Drive;
use vq_model::plan::Op;
use vq_order::Ordered;
use vq_shared_run::Player;

/// What a handle holds. Whatever it is, it is of a lawful plan.
#[derive(Drop)]
pub enum Object {
    /// A lawful plan, of which nothing runs.
    Plan(Ordered),
    /// A run over one core, with all its actors.
    Run(Drive),
    /// An actor of a run over a board, with its share of the board and its timelines.
    Actor(Player),
}

impl Object {
    /// The plan.
    pub(crate) fn ordered(&self) -> &Ordered
        ensures { result.now ≡ plan_of self.now }
    {
        match self {
            Object::Plan(ordered) => ordered,
            Object::Run(drive) => drive.ordered(),
            Object::Actor(player) => player.ordered(),
        }
    }

    /// The line of a job, 0 where there is none.
    pub(crate) fn line_of(&self, job: u32) -> u32
        ensures { result ≡ line_of_job (plan_of self.now) job }
    {
        line_of(self.ordered().plan(), job)
    }

    /// A signal operation, if the plan has it.
    pub(crate) fn op(&self, op: u32) -> Option<Op>
        ensures { result ≡ slice_get (plan_of self.now).ops op }
    {
        let plan = self.ordered().plan();
        if op < plan.ops() {
            Some(plan.op(op))
        } else {
            None
        }
    }
}
