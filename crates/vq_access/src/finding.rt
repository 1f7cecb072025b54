//! Looks for needs.
//!
//! Source: this project's own.
ghost use Rattle.std.specs.Prelude.{◌≡◌, ◌<◌, ◌≤◌, ◌⊎◌, ℕ, Some, true, length};
ghost use Rattle.vq_access.specs.Found.{HasFound};
ghost use Rattle.vq_access.specs.Posts.{meaning, shows};
ghost use Rattle.vq_actor.specs.Waits.{MayFind, AnswersFind, is_resolved};
ghost use Rattle.vq_board.specs.Named.{plan_of, view, IsOf};

use crate::last::Last;
use crate::post::Post;
use vq_board::{Board, OpState, Pass};
use vq_order::Ordered;
use vq_turns::look::Found;

/// What is found for a value that something reaches: past where it is at most the initial one; else past, pending
/// or not pending yet as the operation that resolves it, which the pass recalls.
fn found(ordered: &Ordered, board: &Board, pass: &mut Pass, chain: u32, value: u64) -> Found
    requires plan { ordered.now ≡ plan_of board.now }
    requires board { IsOf board.now pass.old }
    requires resolved { is_resolved ordered.now chain value ≡ true }
    ensures { HasFound ordered.now pass.old pass.new chain value result }
{
    let plan = ordered.plan();
    // nothing resolves a value of a chain that isn't there
    if chain >= plan.chains() {
        return Found::Past;
    }
    if value <= plan.initial(chain) {
        return Found::Past;
    }
    let Some(op) = plan.resolver(chain, value) else {
        unreachable!();
    };
    match board.recall(pass, op) {
        OpState::Past => Found::Past,
        OpState::Bound { point } => Found::Pending { op, point },
        OpState::Unbound => Found::NotYet { op },
    }
}

impl<'a> Post<'a> {
    /// What is found for a need of the next task.
    pub(crate) fn find(&mut self, need: usize, chain: u32, value: u64) -> Found
        requires { MayFind (meaning self.old) need chain value }
        ensures { AnswersFind (meaning self.old) (meaning self.new) need chain value (shows self.new) result }
    {
        self.last = Last::Other;
        let _lawful = self.ordered.plan();
        let found = found(self.ordered, self.board, self.pass, chain, value);
        match found {
            Found::Past => self.seat.pass(),
            Found::Pending { op, point } => self.last = Last::FoundAt { need, op, point },
            Found::NotYet { .. } => {}
        }
        found
    }
}
