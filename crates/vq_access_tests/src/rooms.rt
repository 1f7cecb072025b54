//! Rooms of actors before their first turns, and a turn of one of them.
ghost use Rattle.std.specs.Prelude.{◌≡◌, IfSome};
ghost use Rattle.vq_access.specs.Grounding.{plan_at, board_at};
ghost use Rattle.vq_access_tests.specs.Rooms.{IsPlaced, ArePlaced};
ghost use Rattle.vq_actor.specs.Companies.{IsCompanyOf};
ghost use Rattle.vq_board.specs.Named.{plan_of};
ghost use Rattle.vq_board_stage.specs.Dealing.{AllFresh, IsDealer};

use std::alloc::Global;
use vq_access::{Grounds, Lists};
use vq_actor::{Company, queue_count};
use vq_board::{Board, Pass, Role};
use vq_board_run::AccessRoom;
use vq_board_stage::passes::dealt;
use vq_model::script::ActorName;
use vq_order::Ordered;
use vq_turns::outcome::Outcome;

/// The room of the host.
pub(crate) fn host_room(
    alloc: Global,
    ordered: &Ordered,
    board: &Board,
    company: &Company,
    host: Pass,
) -> Option<AccessRoom>
    requires plan { plan_of board.now ≡ ordered.now }
    requires company { IsCompanyOf ordered.now company.now }
    requires host { IsDealer board.now host }
    ensures { IfSome result (IsPlaced board.now) }
{
    let _ = board;
    let Ok(room) = AccessRoom::new(alloc, ordered, company, ActorName::Host, host) else {
        return None;
    };
    Some(room)
}

/// The room of the submitting thread of a threaded queue, where its pass is the last of the list.
pub(crate) fn submit_room(
    alloc: Global,
    ordered: &Ordered,
    board: &Board,
    company: &Company,
    passes: &mut Vec<Pass>,
    queue: u32,
) -> Option<AccessRoom>
    requires plan { plan_of board.now ≡ ordered.now }
    requires company { IsCompanyOf ordered.now company.now }
    requires passes { AllFresh board.now passes.old.items }
    ensures room { IfSome result (IsPlaced board.now) }
    ensures left { AllFresh board.now passes.new.items }
{
    let pass = dealt(board, passes, Role::Submit(queue))?;
    if !ordered.plan().script().is_threaded(queue) {
        return None;
    }
    let Ok(room) = AccessRoom::new(alloc, ordered, company, ActorName::Submit(queue), pass) else {
        return None;
    };
    Some(room)
}

/// The room of the ring of a queue, where its pass is the last of the list.
pub(crate) fn ring_room(
    alloc: Global,
    ordered: &Ordered,
    board: &Board,
    company: &Company,
    passes: &mut Vec<Pass>,
    queue: u32,
) -> Option<AccessRoom>
    requires plan { plan_of board.now ≡ ordered.now }
    requires company { IsCompanyOf ordered.now company.now }
    requires passes { AllFresh board.now passes.old.items }
    ensures room { IfSome result (IsPlaced board.now) }
    ensures left { AllFresh board.now passes.new.items }
{
    let pass = dealt(board, passes, Role::Ring(queue))?;
    if queue >= queue_count(ordered) {
        return None;
    }
    let Ok(room) = AccessRoom::new(alloc, ordered, company, ActorName::Ring(queue), pass) else {
        return None;
    };
    Some(room)
}

/// A turn of the actor whose room lies in this place, where there is one. The room is put back.
pub(crate) fn turn_at<L: Lists>(
    grounds: &Grounds<L>,
    company: &Company,
    rooms: &mut [Option<AccessRoom>],
    place: usize,
) -> Option<Outcome>
    requires company { IsCompanyOf (plan_at grounds.now) company.now }
    requires rooms { ArePlaced (board_at grounds.now) rooms.old }
    ensures { ArePlaced (board_at grounds.now) rooms.new }
{
    if place >= rooms.len() {
        return None;
    }
    let room = rooms[place].take()?;
    let (room, outcome) = room.take_turn(grounds, company);
    rooms[place] = Some(room);
    Some(outcome)
}
