//! The caller: the host's turns with the answers that they give, the turns of actors without a thread, and the look at
//! the end.
ghost use Rattle.std.specs.Prelude.{◌≡◌, ◌≤◌, length};
ghost use Rattle.std.specs.Vec.{vec_capacity};
ghost use Rattle.vq_access.specs.Grounding.{plan_at, board_at};
ghost use Rattle.vq_actor.specs.Companies.{IsCompanyOf};
ghost use Rattle.vq_board.specs.Named.{view};
ghost use Rattle.vq_board_run.specs.Answered.{HasSeen, IsLead};
ghost use Rattle.vq_model.specs.Outputs.{asking};
ghost use Rattle.vq_rings.specs.Berths.{AreAt};

use crate::actors::{Actors, CALLER, number_of};
use crate::berth::Berth;
use crate::common::Common;
use crate::duty::Duty;
use crate::gate::Gate;
use crate::looks::Looks;
use crate::progress::has_ended;
use crate::rounds::{serve, visit};
use crossbeam_utils::Backoff;
use std::sync::Wait;
use vq_access::{Grounds, Waiting};
use vq_board::Pass;
use vq_board_run::{AccessRoom, host_turn, sees_finished};
use vq_model::plan::AnswerLine;
use vq_model::script::{ActorName, HostStep, Job, Mode, Script};
use vq_turns::outcome::Outcome;

/// Whether the host, where it is blocked, may wait for several things: it serves a deferred queue, or waits for one of
/// several pairs.
fn may_wait_for_several(script: &Script) -> bool {
    for queue in script.queues.as_slice() {
        if matches!(queue.mode, Mode::Deferred) {
            return true;
        }
    }
    for job in script.jobs.as_slice() {
        if let Job::Host(line) = job {
            if let HostStep::WaitAny(_) = &line.step {
                return true;
            }
        }
    }
    false
}

/// The turns of the host until it has ended; while it is blocked, also those of others.
pub(crate) fn host_turns<R: Wait, G: Gate>(
    grounds: &Grounds<Waiting<R>>,
    common: &Common,
    berths: &[Berth],
    mut room: AccessRoom,
    answers: &mut Vec<AnswerLine>,
    duty: &mut Duty,
    gate: &G,
) -> AccessRoom
    requires company { IsCompanyOf (plan_at grounds.now) common.now.company }
    requires berths { AreAt (board_at grounds.now) berths.now }
    requires lead { IsLead (board_at grounds.now) room answers.old.items }
    requires reserved { length (asking (plan_at grounds.now)) ≤ vec_capacity answers.old }
    ensures lead { IsLead (board_at grounds.now) result answers.new.items }
{
    let is_wide = may_wait_for_several(grounds.ordered().plan().script());
    let mut looks = Looks::new(CALLER, is_wide);
    let mut number = 0u64;
    for _ in grounds.lists().rt().forever() {
        gate.at(ActorName::Host, number);
        let (next, outcome) = host_turn(grounds, &common.company, room, answers);
        room = next;
        match outcome {
            Outcome::Moved(event) => {
                duty.made(&common.bells, &event);
                looks.moved();
            }
            Outcome::Blocked(want) => {
                if looks.waits(&common.bells, want) {
                    stand_by(grounds, common, berths, duty, gate);
                    looks.moved();
                }
            }
            Outcome::Ended => return room,
        }
        number = number.saturating_add(1);
    }
    unreachable!()
}

/// The turns of those whom the caller called, and of the actors that have no thread. Then it sleeps, until it is called
/// or one of these is, or has ended.
fn stand_by<R: Wait, G: Gate>(
    grounds: &Grounds<Waiting<R>>,
    common: &Common,
    berths: &[Berth],
    duty: &mut Duty,
    gate: &G,
)
    requires company { IsCompanyOf (plan_at grounds.now) common.now.company }
    requires berths { AreAt (board_at grounds.now) berths.now }
{
    serve(grounds, common, berths, duty, gate);
    visit_lone(grounds, common, berths, duty, gate);
    serve(grounds, common, berths, duty, gate);
    let key = common.bells.begin_sleep(CALLER);
    if !common.bells.are_called(common.bells.heard()) {
        key.wait(grounds.lists().rt());
    }
    common.bells.answer(CALLER);
}

/// The turns of the actors that have no thread, where they are called.
fn visit_lone<R: Wait, G: Gate>(
    grounds: &Grounds<Waiting<R>>,
    common: &Common,
    berths: &[Berth],
    duty: &mut Duty,
    gate: &G,
)
    requires company { IsCompanyOf (plan_at grounds.now) common.now.company }
    requires berths { AreAt (board_at grounds.now) berths.now }
{
    let lone = common.bells.lone();
    if lone.is_empty() {
        return;
    }
    for number in 0..CALLER {
        if lone.meets(Actors::of(number)) {
            visit(grounds, common, berths, number, duty, gate);
        }
    }
}

/// Whether each actor that has no thread has ended.
fn have_lone_ended(common: &Common) -> bool {
    let lone = common.bells.lone();
    for place in 0..common.progress.len() {
        if lone.meets(Actors::of(number_of(place))) && !has_ended(&common.progress, place) {
            return false;
        }
    }
    true
}

/// The turns of the actors that have no thread, until each of them has ended.
pub(crate) fn last_turns<R: Wait, G: Gate>(
    grounds: &Grounds<Waiting<R>>,
    common: &Common,
    berths: &[Berth],
    duty: &mut Duty,
    gate: &G,
)
    requires company { IsCompanyOf (plan_at grounds.now) common.now.company }
    requires berths { AreAt (board_at grounds.now) berths.now }
{
    for _ in grounds.lists().rt().forever() {
        serve(grounds, common, berths, duty, gate);
        visit_lone(grounds, common, berths, duty, gate);
        serve(grounds, common, berths, duty, gate);
        let key = common.bells.begin_sleep(CALLER);
        if have_lone_ended(common) {
            return;
        }
        if !common.bells.are_called(common.bells.heard()) {
            key.wait(grounds.lists().rt());
        }
        common.bells.answer(CALLER);
    }
}

/// Looks at the jobs until all are finished: all actors have ended.
pub(crate) fn see_all<R: Wait>(grounds: &Grounds<Waiting<R>>, pass: &mut Pass)
    requires pass { HasSeen (board_at grounds.now) pass.old 0 }
    ensures seen { HasSeen (board_at grounds.now) pass.new (length (plan_at grounds.now).jobs) }
    ensures told { (view pass.new).told ≡ (view pass.old).told }
{
    let jobs = grounds.ordered().plan().jobs();
    let backoff = Backoff::new();
    let mut seen = 0u32;
    for _ in grounds.lists().rt().forever() {
        if seen >= jobs {
            return;
        }
        if sees_finished(grounds.board(), pass, seen) {
            seen += 1;
        } else {
            backoff.snooze();
        }
    }
    unreachable!()
}
