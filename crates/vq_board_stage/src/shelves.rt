//! The steps of the shelf.
ghost use Rattle.std.specs.Prelude.{◌≡◌, true, [], ◌∷◌};
ghost use Rattle.vq_board.specs.Named.{plan_of};
ghost use Rattle.vq_board_stage.specs.Holders.{HasPoints, HasFirst, HasBoth, IsToBind};
ghost use Rattle.vq_board_stage.specs.ThreeSignals.{IsOfThreeSignals};

use crate::submitting::carrying;
use vq_board::{Board, InUse, JobState, Pass};

/// The shelf makes point 0, for operation 0. It says whether the board gave that number.
pub fn take_first(board: &Board, shelf: &mut Pass) -> bool
    requires plan { IsOfThreeSignals (plan_of board.now) }
    requires shelf { HasPoints board.now shelf.old [] [] [] [] }
    ensures { result ≡ true → HasFirst board.now shelf.new [] [] }
{
    if board.make(shelf) != 0 {
        return false;
    }
    board.assign(shelf, 0, 0);
    true
}

/// The shelf looks whether the batch of operation 0 is released.
pub fn finds_released(board: &Board, shelf: &mut Pass) -> bool
    requires plan { IsOfThreeSignals (plan_of board.now) }
    requires shelf { HasFirst board.now shelf.old [] [] }
    ensures { result ≡ true → IsToBind board.now shelf.new }
{
    board.job_state(shelf, 0) == JobState::Released
}

/// The shelf binds operation 0.
pub fn bind_first(board: &Board, shelf: &mut Pass)
    requires plan { IsOfThreeSignals (plan_of board.now) }
    requires shelf { IsToBind board.now shelf.old }
    ensures { HasFirst board.now shelf.new (0 ∷ []) [] }
{
    board.bind(shelf, 0, 0);
}

/// The shelf completes operation 0, which it finds signaled, with one reference to its point.
pub fn complete_first(board: &Board, shelf: &mut Pass) -> bool
    requires plan { IsOfThreeSignals (plan_of board.now) }
    requires shelf { HasFirst board.now shelf.old (0 ∷ []) [] }
    ensures { result ≡ true →
        HasFirst board.now shelf.new (0 ∷ []) (0 ∷ []) }
{
    if board.look(shelf, 0) != carrying(0, 1, true) {
        return false;
    }
    board.complete(shelf, 0);
    true
}

/// The shelf makes point 1, for operation 1.
pub fn take_second(board: &Board, shelf: &mut Pass) -> bool
    requires plan { IsOfThreeSignals (plan_of board.now) }
    requires shelf { HasFirst board.now shelf.old (0 ∷ []) (0 ∷ []) }
    ensures { result ≡ true → HasBoth board.now shelf.new (0 ∷ []) }
{
    if board.make(shelf) != 1 {
        return false;
    }
    board.assign(shelf, 1, 1);
    true
}

/// The shelf binds operation 1, whose batch is released.
pub fn bind_second(board: &Board, shelf: &mut Pass) -> bool
    requires plan { IsOfThreeSignals (plan_of board.now) }
    requires shelf { HasBoth board.now shelf.old (0 ∷ []) }
    ensures { result ≡ true → HasBoth board.now shelf.new (1 ∷ 0 ∷ []) }
{
    if board.job_state(shelf, 2) != JobState::Released {
        return false;
    }
    board.bind(shelf, 1, 1);
    true
}

/// The shelf can't free point 0 while there is a reference to it.
pub fn is_in_use(board: &Board, shelf: &mut Pass) -> bool
    requires plan { IsOfThreeSignals (plan_of board.now) }
    requires shelf { HasBoth board.now shelf.old (1 ∷ 0 ∷ []) }
    ensures { result ≡ true → HasBoth board.now shelf.new (1 ∷ 0 ∷ []) }
{
    // operation 0, one reference, signaled and held: 0 + 2 ^ 32 + 2 ^ 48 + 2 ^ 49
    let found = 844_429_225_099_264;
    board.retire(shelf, 0) == Err(InUse { found })
}

/// The shelf frees point 0 and gives it to operation 2.
pub fn give_again(board: &Board, shelf: &mut Pass) -> bool
    requires plan { IsOfThreeSignals (plan_of board.now) }
    requires shelf { HasBoth board.now shelf.old (1 ∷ 0 ∷ []) }
{
    if board.retire(shelf, 0).is_err() {
        return false;
    }
    board.assign(shelf, 0, 2);
    true
}
