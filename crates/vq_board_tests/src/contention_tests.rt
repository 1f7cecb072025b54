//! Four batches on four queues, each with three commands, whose rings contend for the turn.
ghost use Rattle.std.specs.Prelude.{◌≡◌, [], ◌∷◌, length, IfSome};
ghost use Rattle.vq_board.specs.Named.{plan_of};
ghost use Rattle.vq_board_stage.specs.Batches.{HasHandedOn, IsReady, IsRunning};
ghost use Rattle.vq_board_stage.specs.Dealing.{AllFresh, AreNew};
ghost use Rattle.vq_board_stage.specs.FourBatches.{AreFour, AreReady};

use std::alloc::Global;
use std::sync::Wait;
use std::thread::{Threads, join};
use vq_board::{Board, Closed, Pass, Passes, Role};
use vq_board_stage::alone::{hand_on, start};
use vq_board_stage::passes::both;
use vq_board_stage::running::{all_finished, work};
use vq_board_stage::scenes::{Scene, opened};

/// The host submits and releases all batches.
fn hand_all_on(board: &Board, host: &mut Pass)
    requires plan { AreFour (plan_of board.now) }
    requires host { HasHandedOn board.now host.old 0 }
    ensures { HasHandedOn board.now host.new 4 }
{
    hand_on(board, host, 0, &[0, 1, 2]);
    hand_on(board, host, 1, &[3, 4, 5]);
    hand_on(board, host, 2, &[6, 7, 8]);
    hand_on(board, host, 3, &[9, 10, 11]);
}

/// Two batches are run by their rings' passes, each in a thread of its own. It says whether both were.
fn work_two<R: Threads + Wait + Sync>(
    rt: &R,
    board: &Board,
    first: Pass,
    j: u32,
    firsts: &[u32],
    second: Pass,
    k: u32,
    seconds: &[u32],
) -> bool
    requires first { IsReady board.now first j firsts.now }
    requires second { IsReady board.now second k seconds.now }
{
    let done = join(
        rt,
        || -> bool
            requires { IsReady board.now first j firsts.now }
        { work(rt, board, first, j, firsts) },
        || -> bool
            requires { IsReady board.now second k seconds.now }
        { work(rt, board, second, k, seconds) },
    );
    done == (true, true)
}

/// The passes of four rings, the first two and the others.
fn all_rings(board: &Board, rings: &mut Vec<Pass>) -> Option<((Pass, Pass), (Pass, Pass))>
    requires fresh { AllFresh board.now rings.old.items }
    requires plan { AreFour (plan_of board.now) }
    ensures { IfSome result (λ t. AreReady board.now t) }
{
    let others = both(board, rings, Role::Ring(2), Role::Ring(3))?;
    Some((both(board, rings, Role::Ring(0), Role::Ring(1))?, others))
}

/// All batches are run, each in a thread of its own. It says whether all were.
fn work_all<R: Threads + Wait + Sync>(
    rt: &R,
    board: &Board,
    rings: ((Pass, Pass), (Pass, Pass)),
) -> bool
    requires { AreReady board.now rings }
{
    let ((first, second), (third, fourth)) = rings;
    let done = join(
        rt,
        || -> bool
            requires first { IsReady board.now first 0 (0 ∷ 1 ∷ 2 ∷ []) }
            requires second { IsReady board.now second 1 (3 ∷ 4 ∷ 5 ∷ []) }
        { work_two(rt, board, first, 0, &[0, 1, 2], second, 1, &[3, 4, 5]) },
        || -> bool
            requires third { IsReady board.now third 2 (6 ∷ 7 ∷ 8 ∷ []) }
            requires fourth { IsReady board.now fourth 3 (9 ∷ 10 ∷ 11 ∷ []) }
        { work_two(rt, board, third, 2, &[6, 7, 8], fourth, 3, &[9, 10, 11]) },
    );
    done == (true, true)
}

/// The board is closed, where all batches are found finished.
fn closed(board: Board, mut host: Pass) -> Option<Closed>
    requires host { HasHandedOn board host 4 }
    requires jobs { length (plan_of board).jobs ≡ 4 }
{
    if all_finished(&board, &mut host, 4) {
        Some(board.close(host))
    } else {
        None
    }
}

/// Whether these are the bytes from 1 to 48.
fn are_counted(bytes: &[u8]) -> bool {
    for (i, byte) in bytes.iter().enumerate() {
        if usize::from(*byte) != i + 1 {
            return false;
        }
    }
    bytes.len() == 48
}

/// The host hands all batches on, and they are run. It says whether all were.
fn run_all<R: Threads + Wait + Sync>(rt: &R, board: &Board, passes: &mut Passes) -> bool
    requires plan { AreFour (plan_of board.now) }
    requires passes { AreNew board.now passes.old }
    ensures { HasHandedOn board.now passes.new.host 4 }
{
    hand_all_on(board, &mut passes.host);
    match all_rings(board, &mut passes.rings) {
        Some(rings) => work_all(rt, board, rings),
        None => false,
    }
}

/// Whether the board has the bytes of all.
fn has_all(closed: &Closed) -> bool {
    let buffers = closed.buffers();
    buffers.count() == 1 && are_counted(buffers.bytes(0))
}

/// The board is closed after all batches ran.
fn all_run<R: Threads + Wait + Sync>(rt: &R, alloc: Global) -> Option<Closed> {
    let (board, mut passes) = opened(alloc, Scene::Contending)?;
    if run_all(rt, &board, &mut passes) {
        closed(board, passes.host)
    } else {
        None
    }
}

/// Whether it has the bytes of all then.
fn runs_all<R: Threads + Wait + Sync>(rt: &R, alloc: Global) -> bool {
    match all_run(rt, alloc) {
        Some(closed) => has_all(&closed),
        None => false,
    }
}

#[test]
fn four_batches_leave_their_bytes(rt: HostRuntime) {
    assert!(rt; runs_all(&rt, rt.alloc()));
}

/// While one pass has the turn the other doesn't get it; then it does.
fn take_turns(board: &Board, first: &mut Pass, second: &mut Pass) -> bool
    requires first { IsRunning board.now first.old 0 }
    requires second { IsRunning board.now second.old 1 }
{
    let Some(held) = board.take_memory(first) else {
        return false;
    };
    let too_soon = board.take_memory(second).is_some();
    board.give_memory(first, held);
    !too_soon && board.take_memory(second).is_some()
}

/// The same once both batches are started.
fn start_and_take(board: &Board, first: &mut Pass, second: &mut Pass) -> bool
    requires first { IsReady board.now first.old 0 (0 ∷ 1 ∷ 2 ∷ []) }
    requires second { IsReady board.now second.old 1 (3 ∷ 4 ∷ 5 ∷ []) }
{
    start(board, first, 0, &[0, 1, 2])
        && start(board, second, 1, &[3, 4, 5])
        && take_turns(board, first, second)
}

/// Whether the turn is had by one pass at a time, on a board of its own.
fn one_has_the_turn(alloc: Global) -> Option<bool> {
    let (board, mut passes) = opened(alloc, Scene::Contending)?;
    hand_all_on(&board, &mut passes.host);
    let (mut rings, _) = all_rings(&board, &mut passes.rings)?;
    Some(start_and_take(&board, &mut rings.0, &mut rings.1))
}

#[test]
fn one_pass_has_the_turn(rt: HostRuntime) {
    assert!(rt; one_has_the_turn(rt.alloc()) == Some(true));
}
