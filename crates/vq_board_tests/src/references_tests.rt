//! References to one point, taken and given back by two passes at once.
ghost use Rattle.std.specs.Prelude.{◌≡◌, true, [], ◌∷◌};
ghost use Rattle.vq_board_laws.specs.Points.{reference};
ghost use Rattle.vq_board.specs.Named.{plan_of};
ghost use Rattle.vq_board_stage.specs.Holders.{HasReferences};
ghost use Rattle.vq_board_stage.specs.ThreeSignals.{IsOfThreeSignals};

use std::alloc::Global;
use std::sync::Wait;
use std::thread::{Threads, join, yield_now};
use vq_board::{Board, Pass, Referred, Role};
use vq_board_stage::passes::{both, dealt};
use vq_board_stage::scenes::{Scene, opened};
use vq_board_stage::shelves::take_first;
use vq_board_stage::submitting::carrying;

/// Takes a reference to point 0 for operation 0, as soon as no one changes the point's word meanwhile. It
/// says whether it did.
fn refer<R: Wait>(rt: &R, board: &Board, pass: &mut Pass, queue: u32) -> bool
    requires plan { IsOfThreeSignals (plan_of board.now) }
    requires without { HasReferences board.now pass.old queue [] }
    ensures { result ≡ true → HasReferences board.now pass.new queue (reference 0 0 ∷ []) }
{
    for _ in rt.forever() {
        match board.refer(pass, 0, 0) {
            Referred::Held => return true,
            Referred::MovedOn { found: _ } => return false,
            Referred::Lost { found: _ } => {}
        }
    }
    unreachable!()
}

/// Gives the reference back, as soon as no one changes the point's word meanwhile.
fn unrefer<R: Wait>(rt: &R, board: &Board, pass: &mut Pass, queue: u32)
    requires plan { IsOfThreeSignals (plan_of board.now) }
    requires held { HasReferences board.now pass.old queue (reference 0 0 ∷ []) }
    ensures { HasReferences board.now pass.new queue [] }
{
    for _ in rt.forever() {
        if board.unrefer(pass, 0, 0).is_ok() {
            return;
        }
    }
    unreachable!()
}

/// Lets another thread run, once every so many rounds.
fn give_way(round: u32) {
    if round % 1000 == 0 {
        yield_now();
    }
}

/// Takes a reference and gives it back, again and again. It says whether each was had. Now and then
/// another thread runs meanwhile, on one processor too.
fn refer_often<R: Wait>(rt: &R, board: &Board, mut pass: Pass, queue: u32) -> bool
    requires plan { IsOfThreeSignals (plan_of board.now) }
    requires without { HasReferences board.now pass queue [] }
{
    for round in 0..100_000u32 {
        if !refer(rt, board, &mut pass, queue) {
            return false;
        }
        give_way(round);
        unrefer(rt, board, &mut pass, queue);
    }
    true
}

/// Two passes take references to the point and give them back, each in a thread of its own. It says whether each
/// reference was had.
fn refer_both<R: Threads + Wait + Sync>(rt: &R, board: &Board, first: Pass, second: Pass) -> bool
    requires plan { IsOfThreeSignals (plan_of board.now) }
    requires first { HasReferences board.now first 0 [] }
    requires second { HasReferences board.now second 1 [] }
{
    join(
        rt,
        || -> bool
            requires plan { IsOfThreeSignals (plan_of board.now) }
            requires first { HasReferences board.now first 0 [] }
        { refer_often(rt, board, first, 0) },
        || -> bool
            requires plan { IsOfThreeSignals (plan_of board.now) }
            requires second { HasReferences board.now second 1 [] }
        { refer_often(rt, board, second, 1) },
    ) == (true, true)
}

/// Whether the point's word says that it carries operation 0 and nobody refers to it, once each pass has given back
/// what it took.
fn gives_back<R: Threads + Wait + Sync>(rt: &R, alloc: Global) -> Option<bool> {
    let (board, mut passes) = opened(alloc, Scene::Signaling)?;
    let mut shelf = dealt(&board, &mut passes.shelves, Role::Shelf(0))?;
    let (first, second) = both(&board, &mut passes.rings, Role::Ring(0), Role::Ring(1))?;
    Some(
        take_first(&board, &mut shelf)
            && refer_both(rt, &board, first, second)
            && board.look(&mut shelf, 0) == carrying(0, 0, false),
    )
}

#[test]
fn references_are_given_back(rt: HostRuntime) {
    assert!(rt; gives_back(&rt, rt.alloc()) == Some(true));
}
