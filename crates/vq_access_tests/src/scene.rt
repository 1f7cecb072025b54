//! A script with three timelines, the board of its plan with these, and the rooms of the actors that act in the tests.
ghost use Rattle.std.specs.Prelude.{◌≡◌, ◌<◌, length, IfSome};
ghost use Rattle.vq_access.specs.Timelines.{AreOf};
ghost use Rattle.vq_access_tests.specs.Rooms.{ArePlaced, IsTimelineOf};
ghost use Rattle.vq_actor.specs.Companies.{IsCompanyOf};
ghost use Rattle.vq_board.specs.Named.{plan_of};
ghost use Rattle.vq_board_stage.specs.Dealing.{AllFresh, AreNew};

use crate::apart_tests::are_apart;
use crate::rooms::{host_room, ring_room, submit_room};
use crate::turns::{Turn, come_out};
use std::alloc::Global;
use std::sync::Wait;
use std::thread::Threads;
use vq_access::{Grounds, Lists, Trying, Waiting};
use vq_actor::Company;
use vq_board::{Board, Pass, Passes, Role};
use vq_board_run::AccessRoom;
use vq_board_stage::passes::{board_of, dealt};
use vq_board_stage::plans::checked;
use vq_order::Ordered;
use vq_timeline::LockedTimeline;

/// P signals T three times; Q and the deferred queue D wait for the first signal; the deferred queue E signals A and B.
const SCRIPT: &[u8] = b"buffer X 4
timeline T 0
timeline A 0
timeline B 0
queue P threaded
queue Q threaded
queue D deferred
queue E deferred
submit P
fill X 0 4 1
signal T 1
end
submit Q
wait T 1
end
submit P
signal T 2
end
submit P
signal T 3
end
submit D
wait T 1
end
submit E
signal A 1
signal B 1
end
";

/// The timeline of a chain, where the pass of its shelf is the last of the list.
fn timeline_of(
    alloc: Global,
    ordered: &Ordered,
    board: &Board,
    shelves: &mut Vec<Pass>,
    chain: u32,
) -> Option<LockedTimeline>
    requires plan { plan_of board.now ≡ ordered.now }
    requires exists { chain < length ordered.now.chains }
    requires shelves { AllFresh board.now shelves.old.items }
    ensures timeline { IfSome result (IsTimelineOf board.now chain) }
    ensures left { AllFresh board.now shelves.new.items }
{
    let shelf = dealt(board, shelves, Role::Shelf(chain))?;
    let Ok(timeline) = LockedTimeline::new(alloc, ordered, board, chain, shelf) else {
        return None;
    };
    Some(timeline)
}

/// Three timelines in one list.
#[tactic(auto, using(crate::proofs::Listed::three_are))]
fn listed(
    alloc: Global,
    board: &Board,
    first: LockedTimeline,
    second: LockedTimeline,
    third: LockedTimeline,
) -> Option<Vec<LockedTimeline>>
    requires count { length (plan_of board.now).chains ≡ 3 }
    requires first { IsTimelineOf board.now 0 first }
    requires second { IsTimelineOf board.now 1 second }
    requires third { IsTimelineOf board.now 2 third }
    ensures { IfSome result (λ ts. AreOf board.now ts.items) }
{
    let _ = board;
    let Ok(timelines) = vec![in alloc; first, second, third] else {
        return None;
    };
    Some(timelines)
}

/// The three timelines of a plan, by the passes of their shelves.
fn timelines_of(
    alloc: Global,
    ordered: &Ordered,
    board: &Board,
    shelves: &mut Vec<Pass>,
) -> Option<Vec<LockedTimeline>>
    requires plan { plan_of board.now ≡ ordered.now }
    requires shelves { AllFresh board.now shelves.old.items }
    ensures timelines { IfSome result (λ ts. AreOf board.now ts.items) }
    ensures left { AllFresh board.now shelves.new.items }
{
    if ordered.plan().chains() != 3 {
        return None;
    }
    let third = timeline_of(alloc, ordered, board, shelves, 2)?;
    let second = timeline_of(alloc, ordered, board, shelves, 1)?;
    let first = timeline_of(alloc, ordered, board, shelves, 0)?;
    listed(alloc, board, first, second, third)
}

/// Where the rooms lie.
pub(crate) const HOST: usize = 0;

pub(crate) const SUBMIT_P: usize = 1;

pub(crate) const SUBMIT_Q: usize = 2;

pub(crate) const RING_P: usize = 3;

pub(crate) const RING_Q: usize = 4;

/// The rooms of the host, of the submitting threads of P and Q, and of their rings, in this order.
fn rooms_of(
    alloc: Global,
    ordered: &Ordered,
    board: &Board,
    company: &Company,
    passes: Passes,
) -> Option<Vec<Option<AccessRoom>>>
    requires plan { plan_of board.now ≡ ordered.now }
    requires company { IsCompanyOf ordered.now company.now }
    requires passes { AreNew board.now passes }
    ensures { IfSome result (λ rooms. ArePlaced board.now rooms.items) }
{
    let Passes {
        host,
        mut submits,
        mut rings,
        shelves: _shelves,
    } = passes;
    let host = host_room(alloc, ordered, board, company, host);
    let second_submit = submit_room(alloc, ordered, board, company, &mut submits, 1);
    let first_submit = submit_room(alloc, ordered, board, company, &mut submits, 0);
    drop(dealt(board, &mut rings, Role::Ring(3)));
    drop(dealt(board, &mut rings, Role::Ring(2)));
    let second_ring = ring_room(alloc, ordered, board, company, &mut rings, 1);
    let first_ring = ring_room(alloc, ordered, board, company, &mut rings, 0);
    let Ok(rooms) = vec![in alloc; host, first_submit, second_submit, first_ring, second_ring]
    else {
        return None;
    };
    Some(rooms)
}

/// Whether each turn comes out as wanted, over rooms that are made of these passes.
pub(crate) fn plays<R: Wait, L: Lists>(
    rt: &R,
    lists: &L,
    alloc: Global,
    ordered: &Ordered,
    board: &Board,
    timelines: &[LockedTimeline],
    passes: Passes,
    turns: &[Turn],
) -> Option<bool>
    requires plan { plan_of board.now ≡ ordered.now }
    requires timelines { AreOf board.now timelines.now }
    requires passes { AreNew board.now passes }
{
    let Ok(company) = Company::new(alloc, ordered) else {
        return None;
    };
    let mut rooms = rooms_of(alloc, ordered, board, &company, passes)?;
    let grounds = Grounds::new(lists, ordered, board, timelines);
    Some(come_out(
        rt,
        &grounds,
        timelines,
        &company,
        rooms.as_mut_slice(),
        turns,
    ))
}

/// What is played.
#[derive(Clone, Copy)]
pub(crate) enum Part {
    /// Turns by who waits for the locks of timelines.
    Waiting(&'static [Turn]),
    /// Turns by who tries them.
    Trying(&'static [Turn]),
    /// Turns in one thread, while another holds the lock of the second timeline.
    Apart,
}

/// A part over a board.
fn plays_part<R: Threads + Wait + Sync>(
    rt: &R,
    alloc: Global,
    ordered: &Ordered,
    board: &Board,
    timelines: &[LockedTimeline],
    passes: Passes,
    part: Part,
) -> Option<bool>
    requires plan { plan_of board.now ≡ ordered.now }
    requires timelines { AreOf board.now timelines.now }
    requires passes { AreNew board.now passes }
{
    match part {
        Part::Waiting(turns) => {
            let lists = Waiting::new(rt);
            plays(rt, &lists, alloc, ordered, board, timelines, passes, turns)
        }
        Part::Trying(turns) => plays(rt, &Trying, alloc, ordered, board, timelines, passes, turns),
        Part::Apart => Some(are_apart(rt, alloc, ordered, board, timelines, passes)),
    }
}

/// A part over a board of the plan.
fn over<R: Threads + Wait + Sync>(
    rt: &R,
    alloc: Global,
    ordered: &Ordered,
    part: Part,
) -> Option<bool> {
    let (board, mut passes) = board_of(alloc, ordered)?;
    let timelines = timelines_of(alloc, ordered, &board, &mut passes.shelves)?;
    plays_part(
        rt,
        alloc,
        ordered,
        &board,
        timelines.as_slice(),
        passes,
        part,
    )
}

/// A part on a board of its own.
pub(crate) fn play<R: Threads + Wait + Sync>(rt: &R, alloc: Global, part: Part) -> Option<bool> {
    over(rt, alloc, &checked(alloc, SCRIPT)?, part)
}
