//! Two threads step at once: that of the layer, with the passes that submit and the shelf's, and that of
//! the device, with the rings'. Each pass is stepped by one thread.
ghost use Rattle.std.specs.Prelude.{[]};
ghost use Rattle.vq_board_laws.specs.declared.view.Role.TheVariants.{Shelf};
ghost use Rattle.vq_board.specs.Named.{plan_of};
ghost use Rattle.vq_board_stage.specs.Dealing.{IsNew};
ghost use Rattle.vq_board_example.specs.FillAndCopy.{IsFillAndCopy};
ghost use Rattle.vq_board_example.specs.Holders.{IsToRelease, IsIdle};

use crate::rings::{run_copy, run_fill};
use crate::shelf::{bind, complete, give_point, retire};
use crate::submitting::{release_copy, release_fill};
use std::sync::Wait;
use std::thread::{Threads, join};
use vq_board::{Board, Pass};

/// The layer's steps on both batches and on the signal.
fn run_layer<R: Wait>(rt: &R, board: &Board, mut first: Pass, mut second: Pass, mut shelf: Pass)
    requires plan { IsFillAndCopy (plan_of board.now) }
    requires first { IsToRelease board.now first 0 }
    requires second { IsToRelease board.now second 1 }
    requires shelf { IsNew board.now shelf (Shelf 0) }
{
    let point = give_point(board, &mut shelf);
    release_fill(rt, board, &mut first, point);
    bind(rt, board, &mut shelf, point);
    release_copy(rt, board, &mut second);
    complete(rt, board, &mut shelf, point);
    retire(rt, board, &mut shelf, point);
}

/// The device's steps.
fn run_device<R: Wait>(rt: &R, board: &Board, mut first: Pass, mut second: Pass)
    requires plan { IsFillAndCopy (plan_of board.now) }
    requires first { IsIdle board.now first 0 [] }
    requires second { IsIdle board.now second 1 [] }
{
    run_fill(rt, board, &mut first);
    run_copy(rt, board, &mut second);
}

/// Both, each in a thread of its own.
pub(crate) fn run<R: Threads + Wait + Sync>(
    rt: &R,
    board: &Board,
    submits: (Pass, Pass),
    shelf: Pass,
    rings: (Pass, Pass),
) -> ((), ())
    requires plan { IsFillAndCopy (plan_of board.now) }
    requires first_submit { IsToRelease board.now submits.0 0 }
    requires second_submit { IsToRelease board.now submits.1 1 }
    requires shelf { IsNew board.now shelf (Shelf 0) }
    requires first_ring { IsIdle board.now rings.0 0 [] }
    requires second_ring { IsIdle board.now rings.1 1 [] }
{
    let (first_submit, second_submit) = submits;
    let (first_ring, second_ring) = rings;
    join(
        rt,
        || -> ()
            requires plan { IsFillAndCopy (plan_of board.now) }
            requires first { IsToRelease board.now first_submit 0 }
            requires second { IsToRelease board.now second_submit 1 }
            requires shelf { IsNew board.now shelf (Shelf 0) }
        { run_layer(rt, board, first_submit, second_submit, shelf) },
        || -> ()
            requires plan { IsFillAndCopy (plan_of board.now) }
            requires first { IsIdle board.now first_ring 0 [] }
            requires second { IsIdle board.now second_ring 1 [] }
        { run_device(rt, board, first_ring, second_ring) },
    )
}
