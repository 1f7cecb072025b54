//! The turns of workers, by the thread that has their berth.
ghost use Rattle.std.specs.Prelude.{◌≡◌, IfSome};
ghost use Rattle.vq_access.specs.Grounding.{plan_at, board_at};
ghost use Rattle.vq_board_run.specs.Rooming.{IsRoomOf};
ghost use Rattle.vq_actor.specs.Companies.{IsCompanyOf};
ghost use Rattle.vq_model.specs.ValidScripts.{IsActor};
ghost use Rattle.vq_model.specs.declared.script.ActorName.{ActorName as Name};
ghost use Rattle.vq_rings.specs.Berths.{AreAt, IsAt, IsHome};

use crate::actors::{Actors, WORKERS, number_of};
use crate::berth::Berth;
use crate::common::Common;
use crate::duty::Duty;
use crate::gate::Gate;
use crate::looks::Looks;
use crate::progress::{end, has_ended, next_turn};
use std::sync::Wait;
use vq_access::{Grounds, Waiting};
use vq_board_run::AccessRoom;
use vq_turns::outcome::Outcome;

/// A thread: it takes its actor's turns where that is called, and those of the actors that its turns call, until its own
/// one has ended.
pub(crate) fn work<R: Wait, G: Gate>(
    grounds: &Grounds<Waiting<R>>,
    common: &Common,
    berths: &[Berth],
    place: usize,
    gate: &G,
)
    requires company { IsCompanyOf (plan_at grounds.now) common.now.company }
    requires berths { AreAt (board_at grounds.now) berths.now }
{
    let number = number_of(place);
    let mut duty = Duty::new(gate.may_hold());
    for _ in grounds.lists().rt().forever() {
        visit(grounds, common, berths, number, &mut duty, gate);
        serve(grounds, common, berths, &mut duty, gate);
        let key = common.bells.begin_sleep(number);
        if has_ended(&common.progress, place) {
            return;
        }
        if !common.bells.are_called(Actors::of(number)) {
            key.wait(grounds.lists().rt());
        }
    }
}

/// The turns of those to whom a thread owes them.
pub(crate) fn serve<R: Wait, G: Gate>(
    grounds: &Grounds<Waiting<R>>,
    common: &Common,
    berths: &[Berth],
    duty: &mut Duty,
    gate: &G,
)
    requires company { IsCompanyOf (plan_at grounds.now) common.now.company }
    requires berths { AreAt (board_at grounds.now) berths.now }
{
    for _ in grounds.lists().rt().forever() {
        let Some(number) = duty.next(&common.bells) else {
            return;
        };
        visit(grounds, common, berths, number, duty, gate);
    }
}

/// The turns of the actors of a number, as often as they are called. Where another thread has one of their berths, that
/// one looks for calls once it has given it back.
pub(crate) fn visit<R: Wait, G: Gate>(
    grounds: &Grounds<Waiting<R>>,
    common: &Common,
    berths: &[Berth],
    number: u32,
    duty: &mut Duty,
    gate: &G,
)
    requires company { IsCompanyOf (plan_at grounds.now) common.now.company }
    requires berths { AreAt (board_at grounds.now) berths.now }
{
    for _ in grounds.lists().rt().forever() {
        if !common.bells.answer(number) {
            return;
        }
        if !turns_of(grounds, common, berths, number, duty, gate) {
            common.bells.call(Actors::of(number));
            if !turns_of(grounds, common, berths, number, duty, gate) {
                return;
            }
        }
    }
}

/// The turns of the actors of a number, until each is blocked or has ended. False if another thread has one of their
/// berths.
fn turns_of<R: Wait, G: Gate>(
    grounds: &Grounds<Waiting<R>>,
    common: &Common,
    berths: &[Berth],
    number: u32,
    duty: &mut Duty,
    gate: &G,
) -> bool
    requires company { IsCompanyOf (plan_at grounds.now) common.now.company }
    requires berths { AreAt (board_at grounds.now) berths.now }
{
    let mut are_taken = true;
    for place in (number as usize..berths.len()).step_by(WORKERS) {
        if !has_ended(&common.progress, place) {
            are_taken &= turns_at(grounds, common, &berths[place], place, duty, gate).is_some();
        }
    }
    are_taken
}

/// The turns of the actor of a berth. `None` if another thread has the berth.
fn turns_at<R: Wait, G: Gate>(
    grounds: &Grounds<Waiting<R>>,
    common: &Common,
    berth: &Berth,
    place: usize,
    duty: &mut Duty,
    gate: &G,
) -> Option<()>
    requires company { IsCompanyOf (plan_at grounds.now) common.now.company }
    requires berth { IsAt (board_at grounds.now) berth.now }
{
    let mut guard = berth.try_lock()?;
    take_turns(grounds, common, guard.content(berth), place, duty, gate);
    berth.unlock_quietly(guard);
    Some(())
}

/// The turns of the actor of a room, until it is blocked or has ended. The room is put back then.
fn take_turns<R: Wait, G: Gate>(
    grounds: &Grounds<Waiting<R>>,
    common: &Common,
    content: &mut Option<AccessRoom>,
    place: usize,
    duty: &mut Duty,
    gate: &G,
)
    requires company { IsCompanyOf (plan_at grounds.now) common.now.company }
    requires room { IfSome content.old (λ r. IsRoomOf (board_at grounds.now) r
        × IsActor (plan_at grounds.now).script r.owner) }
    ensures { (a : Name) → IfSome content.old (λ r. r.owner ≡ a) →
        IfSome content.new (IsHome (board_at grounds.now) a) }
{
    let Some(mut room) = content.take() else {
        return;
    };
    let name = room.owner();
    let mut looks = Looks::new(number_of(place), false);
    for _ in grounds.lists().rt().forever() {
        gate.at(name, next_turn(&common.progress, place));
        let (next, outcome) = room.take_turn(grounds, &common.company);
        room = next;
        if !goes_on(common, place, outcome, &mut looks, duty) {
            *content = Some(room);
            return;
        }
    }
    unreachable!()
}

/// What follows a turn: those whom it lets go on are called. False if the actor is blocked or has ended.
fn goes_on(
    common: &Common,
    place: usize,
    outcome: Outcome,
    looks: &mut Looks,
    duty: &mut Duty,
) -> bool {
    match outcome {
        Outcome::Moved(event) => {
            duty.made(&common.bells, &event);
            looks.moved();
            true
        }
        Outcome::Blocked(want) => !looks.waits(&common.bells, want),
        Outcome::Ended => {
            end(&common.progress, place);
            common.bells.wake(number_of(place));
            false
        }
    }
}
