//! A board whose batches are in a row, and the passes that take them through all steps.
ghost use Rattle.std.specs.Prelude.{IfSome};
ghost use Rattle.vq_board.specs.Named.{plan_of};
ghost use Rattle.vq_board_stage.specs.Dealing.{AllFresh, AreNew, IsNew};
ghost use Rattle.vq_board_bench.specs.Rows.{IsRow, AreReady};

use std::alloc::Global;
use vq_board::{Board, Pass, Passes, Role};
use vq_board_stage::passes::{board_of, dealt};
use vq_order::Ordered;

/// A board with so many batches in a row, the first of which have a command each and a signal.
#[derive(Drop)]
pub(crate) struct Batches {
    pub(crate) board: Board,
    pub(crate) count: u32,
    pub(crate) commands: u32,
    pub(crate) signals: u32,
    ghost row: { IsRow (plan_of board) count commands signals },
}

/// The passes that take part.
#[derive(Drop)]
pub(crate) struct Workers {
    pub(crate) host: Pass,
    pub(crate) shelf: Pass,
    pub(crate) ring: Pass,
}

/// The pass with this role of a list of fresh ones, in which those behind it are dropped.
fn taken(board: &Board, passes: &mut Vec<Pass>, role: Role) -> Option<Pass>
    requires { AllFresh board.now passes.old.items }
    ensures { IfSome result (λ x. IsNew board.now x role) }
{
    for _ in 0..passes.len() {
        if let Some(pass) = dealt(board, passes, role) {
            return Some(pass);
        }
    }
    None
}

/// The passes of the host, the first chain's shelf and the first ring.
fn taking_part(board: &Board, passes: Passes) -> Option<Workers>
    requires { AreNew board.now passes }
    ensures { IfSome result (λ x. AreReady board.now x.host x.shelf x.ring) }
{
    let Passes {
        host,
        submits: _,
        mut rings,
        mut shelves,
    } = passes;
    let shelf = taken(board, &mut shelves, Role::Shelf(0))?;
    let ring = taken(board, &mut rings, Role::Ring(0))?;
    Some(Workers { host, shelf, ring })
}

/// A board of a row, and its passes.
pub(crate) fn opened_row(
    alloc: Global,
    ordered: &Ordered,
    count: u32,
    commands: u32,
    signals: u32,
) -> Option<(Batches, Workers)>
    requires { IsRow ordered.now count commands signals }
    ensures { IfSome result (λ t. AreReady t.0.board t.1.host t.1.shelf t.1.ring) }
{
    let (board, passes) = board_of(alloc, ordered)?;
    let workers = taking_part(&board, passes)?;
    let batches = Batches {
        board,
        count,
        commands,
        signals,
    };
    Some((batches, workers))
}
