//! A batch that waits for the signals of two timelines.
ghost use Rattle.std.specs.Prelude.{[]};
ghost use Rattle.vq_board_laws.specs.declared.view.Role.TheVariants.{Shelf};
ghost use Rattle.vq_board.specs.Named.{plan_of};
ghost use Rattle.vq_board_stage.specs.Dealing.{IsDealer, IsNew};
ghost use Rattle.vq_board_stage.specs.TwoWaits.{IsOfTwoWaits, IsToStart};

use std::alloc::Global;
use vq_board::{Board, Pass, Role};
use vq_board_stage::host_steps::make_signal;
use vq_board_stage::passes::{both, dealt};
use vq_board_stage::running::all_finished;
use vq_board_stage::scenes::{Scene, opened};
use vq_board_stage::waiting::{finish_waiting, hand_on_waiting, refer_to_both, start_waiting};

/// Whether all jobs are found finished, where the host made both signals and the ring then ran the
/// batch.
fn runs_after_both(
    board: &Board,
    host: &mut Pass,
    shelves: &mut (Pass, Pass),
    ring: &mut Pass,
) -> bool
    requires plan { IsOfTwoWaits (plan_of board.now) }
    requires host { IsDealer board.now host.old }
    requires first { IsNew board.now shelves.old.0 (Shelf 0) }
    requires second { IsNew board.now shelves.old.1 (Shelf 1) }
    requires ring { IsToStart board.now ring.old [] }
{
    make_signal(board, host, &mut shelves.0, 0, 0)
        && make_signal(board, host, &mut shelves.1, 1, 1)
        && hand_on_waiting(board, host)
        && refer_to_both(board, ring)
        && start_waiting(board, ring)
        && finish_waiting(board, ring)
        && all_finished(board, host, 3)
}

/// The same on a board of its own.
fn is_run_after_both(alloc: Global) -> Option<bool> {
    let (board, mut passes) = opened(alloc, Scene::Waiting)?;
    let mut shelves = both(&board, &mut passes.shelves, Role::Shelf(0), Role::Shelf(1))?;
    let mut ring = dealt(&board, &mut passes.rings, Role::Ring(0))?;
    Some(runs_after_both(&board, &mut passes.host, &mut shelves, &mut ring))
}

#[test]
fn a_batch_waits_for_two_signals(rt: HostRuntime) {
    assert!(rt; is_run_after_both(rt.alloc()) == Some(true));
}
