//! A point that is made, referred to, freed and used again; and a signal that comes before its point.
ghost use Rattle.std.specs.Prelude.{◌≡◌, true, [], ◌∷◌, IfSome};
ghost use Rattle.vq_board_laws.specs.declared.view.Role.TheVariants.{Ring};
ghost use Rattle.vq_board_laws.specs.Points.{reference};
ghost use Rattle.vq_board.specs.Named.{plan_of, IsOf};
ghost use Rattle.vq_board_stage.specs.Dealing.{AreNew, IsNew};
ghost use Rattle.vq_board_stage.specs.Holders.{HasSubmitted, HasReleased, HasPoints, HasReferences};
ghost use Rattle.vq_board_stage.specs.Holders.{HasFirst, HasBoth, IsToBind};
ghost use Rattle.vq_board_stage.specs.ThreeSignals.{IsOfThreeSignals};

use std::alloc::Global;
use vq_board::{Board, Pass, Passes, Role};
use vq_board_stage::passes::{both, dealt};
use vq_board_stage::rings::{
    fill_first, finds_it_moved_on, is_unbound, refer_first, sees_it_made, signal_first,
    unrefer_first,
};
use vq_board_stage::scenes::{Scene, opened};
use vq_board_stage::shelves::{
    bind_first, bind_second, complete_first, finds_released, give_again, is_in_use, take_first,
    take_second,
};
use vq_board_stage::submitting::{
    carrying, release_first, release_second, release_waiting, submit,
};
use vq_point::PointWord;

/// The first batch is submitted and released, its signal has point 0, and the shelf knows all that.
fn hand_first_on(board: &Board, host: &mut Pass, submitter: &mut Pass, shelf: &mut Pass) -> bool
    requires plan { IsOfThreeSignals (plan_of board.now) }
    requires host { HasSubmitted board.now host.old 0 }
    requires submitter { HasReleased board.now submitter.old 0 [] }
    requires shelf { HasPoints board.now shelf.old [] [] [] [] }
    ensures host { HasSubmitted board.now host.new 1 }
    ensures submitter { result ≡ true → HasReleased board.now submitter.new 0 (0 ∷ []) }
    ensures shelf { result ≡ true → IsToBind board.now shelf.new }
{
    submit(board, host, 0);
    take_first(board, shelf) && release_first(board, submitter) && finds_released(board, shelf)
}

/// The second batch is submitted and released, and its signal has point 1, while point 0 can't be freed.
fn hand_second_on(board: &Board, host: &mut Pass, submitter: &mut Pass, shelf: &mut Pass) -> bool
    requires plan { IsOfThreeSignals (plan_of board.now) }
    requires host { HasSubmitted board.now host.old 2 }
    requires submitter { HasReleased board.now submitter.old 0 (0 ∷ []) }
    requires shelf { HasFirst board.now shelf.old (0 ∷ []) [] }
    ensures { result ≡ true → HasBoth board.now shelf.new (1 ∷ 0 ∷ []) }
{
    submit(board, host, 2);
    complete_first(board, shelf)
        && take_second(board, shelf)
        && release_second(board, submitter)
        && bind_second(board, shelf)
        && is_in_use(board, shelf)
}

/// P's ring runs the first batch, while Q's holds a reference to point 0.
fn run_first(board: &Board, first: &mut Pass, second: &mut Pass) -> bool
    requires plan { IsOfThreeSignals (plan_of board.now) }
    requires first { IsNew board.now first.old (Ring 0) }
    requires without { HasReferences board.now second.old 1 [] }
    ensures { result ≡ true → HasReferences board.now second.new 1 (reference 0 0 ∷ []) }
{
    refer_first(board, second) && fill_first(board, first) && signal_first(board, first)
}

/// Once Q's ring has given its reference back, point 0 is used again, and no longer found for operation 0.
fn use_again(board: &Board, ring: &mut Pass, shelf: &mut Pass) -> bool
    requires plan { IsOfThreeSignals (plan_of board.now) }
    requires held { HasReferences board.now ring.old 1 (reference 0 0 ∷ []) }
    requires shelf { HasBoth board.now shelf.old (1 ∷ 0 ∷ []) }
{
    sees_it_made(board, ring)
        && unrefer_first(board, ring)
        && give_again(board, shelf)
        && finds_it_moved_on(board, ring)
}

/// The first batch is handed on and bound, and run while Q's ring refers to point 0.
fn runs_first(
    board: &Board,
    host: &mut Pass,
    submits: &mut (Pass, Pass),
    rings: &mut (Pass, Pass),
    shelf: &mut Pass,
) -> bool
    requires plan { IsOfThreeSignals (plan_of board.now) }
    requires host { HasSubmitted board.now host.old 0 }
    requires submitter { HasReleased board.now submits.old.0 0 [] }
    requires waiting { HasReleased board.now submits.old.1 1 [] }
    requires first { IsNew board.now rings.old.0 (Ring 0) }
    requires second { HasReferences board.now rings.old.1 1 [] }
    requires shelf { HasPoints board.now shelf.old [] [] [] [] }
    ensures host { result ≡ true → HasSubmitted board.now host.new 2 }
    ensures submitter { result ≡ true → HasReleased board.now submits.new.0 0 (0 ∷ []) }
    ensures held { result ≡ true → HasReferences board.now rings.new.1 1 (reference 0 0 ∷ []) }
    ensures shelf { result ≡ true → HasFirst board.now shelf.new (0 ∷ []) [] }
{
    if !hand_first_on(board, host, &mut submits.0, shelf) {
        return false;
    }
    bind_first(board, shelf);
    submit(board, host, 1);
    release_waiting(board, &mut submits.1) && run_first(board, &mut rings.0, &mut rings.1)
}

/// The passes of the threads that submit, of the rings and of the shelf.
fn all_passes(board: &Board, passes: &mut Passes) -> Option<((Pass, Pass), (Pass, Pass), Pass)>
    requires { AreNew board.now passes.old }
    ensures host { passes.new.host ≡ passes.old.host }
    ensures submitter { IfSome result (λ t. HasReleased board.now t.0.0 0 []) }
    ensures waiting { IfSome result (λ t. HasReleased board.now t.0.1 1 []) }
    ensures first { IfSome result (λ t. IsNew board.now t.1.0 (Ring 0)) }
    ensures second { IfSome result (λ t. IsNew board.now t.1.1 (Ring 1)) }
    ensures shelf { IfSome result (λ t. HasPoints board.now t.2 [] [] [] []) }
{
    let submits = both(board, &mut passes.submits, Role::Submit(0), Role::Submit(1))?;
    let rings = both(board, &mut passes.rings, Role::Ring(0), Role::Ring(1))?;
    let shelf = dealt(board, &mut passes.shelves, Role::Shelf(0))?;
    Some((submits, rings, shelf))
}

/// Whether point 0 is used again as soon as no one refers to it, and not before.
fn uses_again(alloc: Global) -> Option<bool> {
    let (board, mut passes) = opened(alloc, Scene::Signaling)?;
    let (mut submits, mut rings, mut shelf) = all_passes(&board, &mut passes)?;
    let host = &mut passes.host;
    if !runs_first(&board, host, &mut submits, &mut rings, &mut shelf) {
        return Some(false);
    }
    Some(
        hand_second_on(&board, host, &mut submits.0, &mut shelf)
            && use_again(&board, &mut rings.1, &mut shelf),
    )
}

#[test]
fn a_point_is_used_again(rt: HostRuntime) {
    assert!(rt; uses_again(rt.alloc()) == Some(true));
}

/// Whether a signal comes only once its operation is bound, by the passes that take part.
fn signals_bound(
    board: &Board,
    host: &mut Pass,
    submitter: &mut Pass,
    ring: &mut Pass,
    shelf: &mut Pass,
) -> bool
    requires plan { IsOfThreeSignals (plan_of board.now) }
    requires host { HasSubmitted board.now host.old 0 }
    requires submitter { HasReleased board.now submitter.old 0 [] }
    requires ring { IsNew board.now ring.old (Ring 0) }
    requires shelf { HasPoints board.now shelf.old [] [] [] [] }
{
    if !hand_first_on(board, host, submitter, shelf) || !fill_first(board, ring) {
        return false;
    }
    if !is_unbound(board, ring) {
        return false;
    }
    bind_first(board, shelf);
    signal_first(board, ring)
}

/// The same on a board of its own.
fn binds_before_it_signals(alloc: Global) -> Option<bool> {
    let (board, mut passes) = opened(alloc, Scene::Signaling)?;
    let (mut submits, mut rings, mut shelf) = all_passes(&board, &mut passes)?;
    let host = &mut passes.host;
    Some(signals_bound(&board, host, &mut submits.0, &mut rings.0, &mut shelf))
}

#[test]
fn an_unbound_operation_is_not_signaled(rt: HostRuntime) {
    assert!(rt; binds_before_it_signals(rt.alloc()) == Some(true));
}

/// Whether a pass finds the first point made, and the second one not.
fn finds_one(board: &Board, host: &mut Pass) -> bool
    requires plan { IsOfThreeSignals (plan_of board.now) }
    requires host { IsOf board.now host.old }
{
    let unmade = PointWord {
        op: 0,
        refs: 0,
        signaled: false,
        held: false,
    };
    board.look(host, 0) == carrying(0, 0, false) && board.look(host, 1) == unmade
}

/// What the words of the first two points say, once one is made.
fn has_two_words(alloc: Global) -> Option<bool> {
    let (board, mut passes) = opened(alloc, Scene::Signaling)?;
    let mut shelf = dealt(&board, &mut passes.shelves, Role::Shelf(0))?;
    Some(take_first(&board, &mut shelf) && finds_one(&board, &mut passes.host))
}

#[test]
fn a_point_that_is_not_made_says_nothing(rt: HostRuntime) {
    assert!(rt; has_two_words(rt.alloc()) == Some(true));
}
