//! A list of turns, each with what it comes to.
ghost use Rattle.vq_access.specs.Grounding.{plan_at, board_at};
ghost use Rattle.vq_access.specs.Timelines.{AreOf};
ghost use Rattle.vq_access_tests.specs.Rooms.{ArePlaced};
ghost use Rattle.vq_actor.specs.Companies.{IsCompanyOf};

use crate::events::is_same;
use crate::rooms::turn_at;
use std::sync::Wait;
use vq_access::{Grounds, Lists};
use vq_actor::Company;
use vq_board_run::AccessRoom;
use vq_model::plan::Event;
use vq_timeline::LockedTimeline;
use vq_turns::outcome::{Outcome, Want};

/// What a turn comes to.
#[derive(Clone, Copy)]
pub(crate) enum Expected {
    /// It makes this event.
    Makes(Event),
    /// It is taken while the lock of the first timeline is held, and is held back by the lists of this operation.
    IsHeldBack { op: u32 },
}

/// Who takes a turn, by the place of the room, and what it comes to.
pub(crate) type Turn = (usize, Expected);

/// Whether a turn made this event.
fn has_made(outcome: Option<Outcome>, expected: Event) -> bool {
    match outcome {
        Some(Outcome::Moved(event)) => is_same(event, expected),
        Some(Outcome::Blocked(_)) | Some(Outcome::Ended) | None => false,
    }
}

/// Whether a turn was held back by the lists of this operation.
fn is_held_back(outcome: Option<Outcome>, expected: u32) -> bool {
    match outcome {
        Some(Outcome::Blocked(Want::Listed { op })) => op == expected,
        _ => false,
    }
}

/// What a turn comes to while the lock of the first timeline is held.
fn turn_in_use<R: Wait, L: Lists>(
    rt: &R,
    grounds: &Grounds<L>,
    timelines: &[LockedTimeline],
    company: &Company,
    rooms: &mut [Option<AccessRoom>],
    place: usize,
) -> Option<Outcome>
    requires timelines { AreOf (board_at grounds.now) timelines.now }
    requires company { IsCompanyOf (plan_at grounds.now) company.now }
    requires rooms { ArePlaced (board_at grounds.now) rooms.old }
    ensures { ArePlaced (board_at grounds.now) rooms.new }
{
    let timeline = timelines.first()?;
    let board = grounds.board();
    let guard = timeline.lock(rt, board);
    let outcome = turn_at(grounds, company, rooms, place);
    timeline.unlock(board, guard);
    outcome
}

/// Whether a turn comes to what is expected.
fn comes_out<R: Wait, L: Lists>(
    rt: &R,
    grounds: &Grounds<L>,
    timelines: &[LockedTimeline],
    company: &Company,
    rooms: &mut [Option<AccessRoom>],
    turn: Turn,
) -> bool
    requires timelines { AreOf (board_at grounds.now) timelines.now }
    requires company { IsCompanyOf (plan_at grounds.now) company.now }
    requires rooms { ArePlaced (board_at grounds.now) rooms.old }
    ensures { ArePlaced (board_at grounds.now) rooms.new }
{
    let (place, expected) = turn;
    match expected {
        Expected::Makes(event) => has_made(turn_at(grounds, company, rooms, place), event),
        Expected::IsHeldBack { op } => {
            is_held_back(
                turn_in_use(rt, grounds, timelines, company, rooms, place),
                op,
            )
        }
    }
}

/// Whether each turn does.
pub(crate) fn come_out<R: Wait, L: Lists>(
    rt: &R,
    grounds: &Grounds<L>,
    timelines: &[LockedTimeline],
    company: &Company,
    rooms: &mut [Option<AccessRoom>],
    turns: &[Turn],
) -> bool
    requires timelines { AreOf (board_at grounds.now) timelines.now }
    requires company { IsCompanyOf (plan_at grounds.now) company.now }
    requires rooms { ArePlaced (board_at grounds.now) rooms.old }
{
    for turn in turns {
        if !comes_out(rt, grounds, timelines, company, rooms, *turn) {
            return false;
        }
    }
    true
}
