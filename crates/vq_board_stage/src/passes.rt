//! A board with its passes, and fresh passes taken from the lists in which they are dealt.
ghost use Rattle.std.specs.Prelude.{◌≡◌, IfSome};
ghost use Rattle.vq_board.specs.Named.{plan_of, IsFresh};
ghost use Rattle.vq_board_stage.specs.Dealing.{AllFresh, AreNew, IsNew};

use std::alloc::Global;
use vq_board::{Board, Pass, Passes, Role};
use vq_order::Ordered;

/// The board of a lawful plan, with its passes.
pub fn board_of(alloc: Global, ordered: &Ordered) -> Option<(Board, Passes)>
    ensures plan { IfSome result (λ t. plan_of t.0 ≡ ordered.now) }
    ensures passes { IfSome result (λ t. AreNew t.0 t.1) }
{
    let Ok((board, passes)) = Board::new(alloc, ordered) else {
        return None;
    };
    Some((board, passes))
}

/// The last pass of a list of fresh ones.
fn last(board: &Board, passes: &mut Vec<Pass>) -> Option<Pass>
    requires { AllFresh board.now passes.old.items }
    ensures pass { IfSome result (λ x. IsFresh board.now x) }
    ensures left { AllFresh board.now passes.new.items }
{
    passes.pop()
}

/// The last pass of a list of fresh ones, where it is that of the role.
pub fn dealt(board: &Board, passes: &mut Vec<Pass>, role: Role) -> Option<Pass>
    requires { AllFresh board.now passes.old.items }
    ensures pass { IfSome result (λ x. IsNew board.now x role) }
    ensures left { AllFresh board.now passes.new.items }
{
    let pass = last(board, passes)?;
    if pass.role() == role {
        Some(pass)
    } else {
        None
    }
}

/// The last two passes of a list of fresh ones, where they are those of the roles.
pub fn both(
    board: &Board,
    passes: &mut Vec<Pass>,
    first: Role,
    second: Role,
) -> Option<(Pass, Pass)>
    requires { AllFresh board.now passes.old.items }
    ensures first { IfSome result (λ t. IsNew board.now t.0 first) }
    ensures second { IfSome result (λ t. IsNew board.now t.1 second) }
    ensures left { AllFresh board.now passes.new.items }
{
    let last = dealt(board, passes, second)?;
    Some((dealt(board, passes, first)?, last))
}
