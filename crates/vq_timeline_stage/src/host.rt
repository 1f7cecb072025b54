//! The steps of the host's pass.
ghost use Rattle.std.specs.Prelude.{◌<◌, ◌+◌};
ghost use Rattle.vq_board.specs.Named.{plan_of};
ghost use Rattle.vq_board_stage.specs.Holders.{HasSubmitted};
ghost use Rattle.vq_timeline_stage.specs.TwoBatches.{IsOfTwoBatches};

use vq_board::{Board, Pass};

/// The host submits the next batch.
pub fn submit(board: &Board, host: &mut Pass, j: u32)
    requires plan { IsOfTwoBatches (plan_of board.now) }
    requires one_of { j < 2 }
    requires earlier { HasSubmitted board.now host.old j }
    ensures { HasSubmitted board.now host.new (j + 1) }
{
    board.submit(host, j);
}
