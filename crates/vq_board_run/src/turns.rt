//! The host's turns, with the answers that they give.
//!
//! Source: this project's own.
ghost use Rattle.std.specs.Prelude.{◌≡◌, ◌<◌, ◌≤◌, ◌++◌, [], ◌∷◌, length};
ghost use Rattle.std.specs.Vec.{vec_len, vec_capacity};
ghost use Rattle.vq_access.specs.Grounding.{plan_at, board_at};
ghost use Rattle.vq_actor.specs.Companies.{IsCompanyOf};
ghost use Rattle.vq_board_run.specs.Answered.{IsLead, answer_by, lines_of};
ghost use Rattle.vq_model.specs.Outputs.{asking};
ghost use Rattle.vq_model.specs.OutputText.{answer_at};
ghost use Rattle.vq_model.specs.Plan.{line_of_job};
ghost use Rattle.vq_board_run.specs.Rooming.{IsRoomTurn, ShowsBlocked, TellsBy, view_of};

use crate::room::AccessRoom;
use vq_access::{Grounds, Lists};
use vq_actor::Company;
use vq_model::plan::{Answer, AnswerLine, Event};
use vq_spec::Plan;
use vq_turns::outcome::Outcome;

/// The line of a job, 0 where there is no such job.
pub fn line_of(plan: &Plan, job: u32) -> u32
    ensures { result ≡ line_of_job plan.now job }
{
    if job < plan.jobs() {
        plan.job(job).line
    } else {
        0
    }
}

/// Keeps an answer, with the line of its job, in room that is there.
fn keep(plan: &Plan, answers: &mut Vec<AnswerLine>, job: u32, answer: Answer)
    requires { vec_len answers.old < vec_capacity answers.old }
    ensures items { answers.new.items ≡ answers.old.items ++ answer_at plan.now job answer ∷ [] }
    ensures room { vec_capacity answers.new ≡ vec_capacity answers.old }
{
    let line = line_of(plan, job);
    answers.push_reserved(AnswerLine { line, answer });
}

/// The answer that a turn gave, with its job.
fn answer_of(outcome: Outcome) -> Option<(u32, Answer)>
    ensures { result ≡ answer_by outcome }
{
    match outcome {
        Outcome::Moved(event) => match event {
            Event::Answer { job, answer } => Some((job, answer)),
            _ => None,
        },
        Outcome::Blocked(_) | Outcome::Ended => None,
    }
}

/// A turn of the host, as its room takes it. An answer that it gives is kept: there is room for one to each step that
/// asks something, and none is answered twice.
pub fn host_turn<L: Lists>(
    grounds: &Grounds<L>,
    company: &Company,
    room: AccessRoom,
    answers: &mut Vec<AnswerLine>,
) -> (AccessRoom, Outcome)
    requires company { IsCompanyOf (plan_at grounds.now) company.now }
    requires lead { IsLead (board_at grounds.now) room answers.old.items }
    requires reserved { length (asking (plan_at grounds.now)) ≤ vec_capacity answers.old }
    ensures lead { IsLead (board_at grounds.now) result.0 answers.new.items }
    ensures reserved { vec_capacity answers.new ≡ vec_capacity answers.old }
    ensures kept { answers.new.items
        ≡ answers.old.items ++ lines_of (plan_at grounds.now) (answer_by result.1) }
    ensures owner { result.0.owner ≡ room.owner }
    ensures told { TellsBy (view_of room) (view_of result.0) result.1 }
    ensures shown { ShowsBlocked room result.0 result.1 }
    ensures turn { IsRoomTurn (plan_at grounds.now) room result.0 result.1 }
{
    let (room, outcome) = room.take_turn(grounds, company);
    if let Some((job, answer)) = answer_of(outcome) {
        keep(grounds.ordered().plan(), answers, job, answer);
    }
    (room, outcome)
}
