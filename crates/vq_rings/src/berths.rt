//! The berths of a run's workers, before their first turns.
//!
//! Source: this project's own.
ghost use Rattle.std.specs.Prelude.{◌≡◌, IfOk};
ghost use Rattle.vq_board_run.specs.Crewed.{AreWorkersOf, IsWorkerOf};
ghost use Rattle.vq_rings.specs.Berths.{AreBerths, IsAt, actor_at};

use crate::berth::{Berth, Home};
use std::alloc::{AllocError, Global};
use std::snapshot::Snapshot;
use vq_board::Board;
use vq_board_run::AccessRoom;
use vq_lock::KeyedLock;

/// The berth of a worker before its first turn.
fn berth_of(alloc: Global, board: &Board, room: AccessRoom) -> Result<Berth, AllocError>
    requires { IsWorkerOf board.now room }
    ensures board { IfOk result (IsAt board.now) }
    ensures actor { IfOk result (λ berth. actor_at berth ≡ room.owner) }
{
    let home = Home {
        board: Snapshot::of(board),
        actor: room.owner(),
    };
    KeyedLock::new(alloc, &home, Some(room))
}

/// A berth for each worker.
pub(crate) fn berths_of(
    alloc: Global,
    board: &Board,
    rooms: Vec<AccessRoom>,
) -> Result<Vec<Berth>, AllocError>
    requires { AreWorkersOf board.now rooms.items }
    ensures { IfOk result (λ xs. AreBerths board.now xs.items) }
{
    let mut berths = Vec::with_capacity(alloc, rooms.len())?;
    for room in rooms {
        berths.push(berth_of(alloc, board, room)?)?;
    }
    Ok(berths)
}
