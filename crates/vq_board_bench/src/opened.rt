//! A board with a pass that runs a batch, and a point that carries an operation.
ghost use Rattle.std.specs.Prelude.{◌≡◌, true, false, IfSome};
ghost use Rattle.vq_model.specs.LoweredPlans.{IsPlan};
ghost use Rattle.vq_board_laws.specs.declared.view.Role.TheVariants.{Shelf};
ghost use Rattle.vq_board.specs.Named.{plan_of};
ghost use Rattle.vq_board_stage.specs.Dealing.{AreNew, IsNew};
ghost use Rattle.vq_board_bench.specs.Idle.{IsOfWorker, IsReferring};

use crate::row::has_share;
use std::alloc::Global;
use vq_board::{Board, Pass, Passes, Role};
use vq_board_stage::alone::{hand_on, is_alone, start};
use vq_board_stage::passes::{board_of, both, dealt};
use vq_board_stage::plans::checked;
use vq_board_stage::three_signals::is_signal;
use vq_spec::Plan;

/// The first batch waits for nothing and does nothing; the second has a signal.
const SCRIPT: &[u8] = b"timeline A 0
queue P immediate
queue Q immediate
submit P
end
submit Q
signal A 1
end
";

/// Whether the plan is that of the script.
fn is_of_worker(plan: &Plan) -> bool
    requires { IsPlan plan.now }
    ensures { result ≡ true → IsOfWorker plan.now }
{
    is_alone(plan, 0, &[]) && plan.ops() != 0 && is_signal(plan, 0, 0, 1) && has_share(plan, 1)
}

/// The shelf gives a new point to the first operation. It says whether it is the first point.
fn give_point(board: &Board, shelf: &mut Pass) -> bool
    requires plan { IsOfWorker (plan_of board.now) }
    requires shelf { IsNew board.now shelf.old (Shelf 0) }
{
    let point = board.make(shelf);
    board.assign(shelf, point, 0);
    point == 0
}

/// The pass of the first ring, which has started the first batch, where the host has handed that over and the
/// first point carries the first operation.
fn worker(board: &Board, passes: &mut Passes) -> Option<Pass>
    requires plan { IsOfWorker (plan_of board.now) }
    requires passes { AreNew board.now passes.old }
    ensures { IfSome result (λ x. IsReferring board.now x false) }
{
    hand_on(board, &mut passes.host, 0, &[]);
    let mut shelf = dealt(board, &mut passes.shelves, Role::Shelf(0))?;
    let (mut ring, _) = both(board, &mut passes.rings, Role::Ring(0), Role::Ring(1))?;
    if give_point(board, &mut shelf) && start(board, &mut ring, 0, &[]) {
        Some(ring)
    } else {
        None
    }
}

/// A board whose first point carries the first operation, and a pass that runs a batch.
pub(crate) fn opened(alloc: Global) -> Option<(Board, Pass)>
    ensures { IfSome result (λ t. IsReferring t.0 t.1 false) }
{
    let ordered = checked(alloc, SCRIPT)?;
    if !is_of_worker(ordered.plan()) {
        return None;
    }
    let (board, mut passes) = board_of(alloc, &ordered)?;
    let pass = worker(&board, &mut passes)?;
    Some((board, pass))
}
