//! The board of the script, and the passes of the actors that take part.
ghost use Rattle.std.specs.Prelude.{◌≡◌, [], IfSome};
ghost use Rattle.vq_board_laws.specs.declared.view.Role.TheVariants.{Shelf};
ghost use Rattle.vq_board.specs.Named.{plan_of};
ghost use Rattle.vq_board_stage.specs.Dealing.{AllFresh, IsNew};
ghost use Rattle.vq_board_example.specs.FillAndCopy.{IsFillAndCopy};
ghost use Rattle.vq_board_example.specs.Holders.{HasSubmitted, IsToRelease, IsIdle};

use crate::plans::is_fill_and_copy;
use std::alloc::Global;
use vq_board::{Board, Pass, Passes, Role};
use vq_board_stage::passes::{board_of, dealt};
use vq_order::Ordered;

/// The board of the plan, where that is the script's, with its passes. None also where memory is short.
pub(crate) fn opened(alloc: Global, ordered: &Ordered) -> Option<(Board, Passes)>
    ensures same { IfSome result (λ t. plan_of t.0 ≡ ordered.now) }
    ensures plan { IfSome result (λ t. IsFillAndCopy (plan_of t.0)) }
    ensures host { IfSome result (λ t. HasSubmitted t.0 t.1.host 0) }
    ensures submits { IfSome result (λ t. AllFresh t.0 t.1.submits.items) }
    ensures rings { IfSome result (λ t. AllFresh t.0 t.1.rings.items) }
    ensures shelves { IfSome result (λ t. AllFresh t.0 t.1.shelves.items) }
{
    if !is_fill_and_copy(ordered.plan()) {
        return None;
    }
    board_of(alloc, ordered)
}

/// The passes of P's and Q's submitting threads.
pub(crate) fn both_submits(board: &Board, mut submits: Vec<Pass>) -> Option<(Pass, Pass)>
    requires { AllFresh board.now submits.items }
    ensures first { IfSome result (λ t. IsToRelease board.now t.0 0) }
    ensures second { IfSome result (λ t. IsToRelease board.now t.1 1) }
{
    let second = dealt(board, &mut submits, Role::Submit(1))?;
    let first = dealt(board, &mut submits, Role::Submit(0))?;
    Some((first, second))
}

/// The passes of P's and Q's rings.
pub(crate) fn both_rings(board: &Board, mut rings: Vec<Pass>) -> Option<(Pass, Pass)>
    requires { AllFresh board.now rings.items }
    ensures first { IfSome result (λ t. IsIdle board.now t.0 0 []) }
    ensures second { IfSome result (λ t. IsIdle board.now t.1 1 []) }
{
    let second = dealt(board, &mut rings, Role::Ring(1))?;
    let first = dealt(board, &mut rings, Role::Ring(0))?;
    Some((first, second))
}

/// The pass of A's shelf.
pub(crate) fn shelf(board: &Board, mut shelves: Vec<Pass>) -> Option<Pass>
    requires { AllFresh board.now shelves.items }
    ensures { IfSome result (λ x. IsNew board.now x (Shelf 0)) }
{
    dealt(board, &mut shelves, Role::Shelf(0))
}
