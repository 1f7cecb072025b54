//! The host reads a timeline before its signal and after it.
ghost use Rattle.std.specs.Prelude.{◌≡◌, true};
ghost use Rattle.vq_board.specs.Named.{plan_of};
ghost use Rattle.vq_board_stage.specs.Dealing.{AreNew};
ghost use Rattle.vq_board_stage.specs.HostSteps.{HasFinished};
ghost use Rattle.vq_board_stage.specs.Reads.{IsOfReads};

use std::alloc::Global;
use vq_board::{Board, Closed, Passes, Role};
use vq_board_stage::host_steps::{make_signal, read_first, read_last};
use vq_board_stage::passes::dealt;
use vq_board_stage::scenes::{Scene, opened};

/// The host's steps are made, one after another. It says whether they came out as wanted.
fn reads_around(board: &Board, passes: &mut Passes) -> bool
    requires plan { IsOfReads (plan_of board.now) }
    requires passes { AreNew board.now passes.old }
    ensures { result ≡ true → HasFinished board.now passes.new.host 3 }
{
    let Some(mut shelf) = dealt(board, &mut passes.shelves, Role::Shelf(0)) else {
        return false;
    };
    if !read_first(board, &mut passes.host)
        || !make_signal(board, &mut passes.host, &mut shelf, 1, 0)
    {
        return false;
    }
    read_last(board, &mut passes.host);
    true
}

/// The board is closed after them.
fn closed(alloc: Global) -> Option<Closed> {
    let (board, mut passes) = opened(alloc, Scene::Reading)?;
    if reads_around(&board, &mut passes) {
        Some(board.close(passes.host))
    } else {
        None
    }
}

#[test]
fn a_timeline_is_read_before_and_after_its_signal(rt: HostRuntime) {
    // that the answers are an output of the script is proved where the board is closed
    let buffers = closed(rt.alloc()).map(|closed| closed.buffers().count());
    assert!(rt; buffers == Some(0));
}
