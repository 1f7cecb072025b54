//! The threads of a run.
ghost use Rattle.std.specs.Prelude.{◌≡◌, ◌≤◌, length};
ghost use Rattle.std.specs.Vec.{vec_capacity};
ghost use Rattle.vq_access.specs.Grounding.{plan_at, board_at};
ghost use Rattle.vq_actor.specs.Companies.{IsCompanyOf};
ghost use Rattle.vq_model.specs.Outputs.{asking};
ghost use Rattle.vq_board_run.specs.Answered.{IsDone, IsLead};
ghost use Rattle.vq_rings.specs.Berths.{AreAt};

use crate::actors::number_of;
use crate::berth::Berth;
use crate::common::Common;
use crate::duty::Duty;
use crate::gate::Gate;
use crate::lead::{host_turns, last_turns, see_all};
use crate::rounds::work;
use std::sync::Wait;
use std::thread;
use std::thread::Threads;
use vq_access::{Grounds, Waiting};
use vq_board::Pass;
use vq_board_run::Lead;
use vq_model::plan::AnswerLine;

/// The host's pass, which knows all jobs finished, and the answers that it told.
#[derive(Drop)]
pub(crate) struct Done {
    pub(crate) pass: Pass,
    pub(crate) answers: Vec<AnswerLine>,
}

/// A thread for each berth, and the caller for the host and for each actor whose thread was refused.
pub(crate) fn run_threads<R: Threads + Wait + Sync, G: Gate>(
    grounds: &Grounds<Waiting<R>>,
    common: &Common,
    berths: &[Berth],
    lead: Lead,
    gate: &G,
) -> Done
    requires company { IsCompanyOf (plan_at grounds.now) common.now.company }
    requires berths { AreAt (board_at grounds.now) berths.now }
    requires lead { IsLead (board_at grounds.now) lead.room lead.answers.items }
    requires reserved { length (asking (plan_at grounds.now)) ≤ vec_capacity lead.answers }
    ensures { IsDone (board_at grounds.now) result.pass result.answers.items }
{
    let mut duty = Duty::new(gate.may_hold());
    let lead = thread::scope(
        thread::scope_env(),
        grounds.lists().rt(),
        |scope| -> Lead
            requires { IsCompanyOf (plan_at grounds.now) common.now.company × AreAt (board_at grounds.now) berths.now
                × IsLead (board_at grounds.now) lead.room lead.answers.items
                × (length (asking (plan_at grounds.now)) ≤ vec_capacity lead.answers) }
            ensures { IsLead (board_at grounds.entry.now) result.room result.answers.items }
        {
            for place in 0..berths.len() {
                let started = scope.spawn(
                    move || -> ()
                        requires { IsCompanyOf (plan_at grounds.now) common.now.company
                            × AreAt (board_at grounds.now) berths.now }
                    { work(grounds, common, berths, place, gate) },
                );
                if started.is_err() {
                    common.bells.note_lone(number_of(place));
                }
            }
            lead_on(grounds, common, berths, lead, &mut duty, gate)
        },
    );
    finish(grounds, lead)
}

/// The caller, while threads run: the turns of the host, and of the actors without a thread, until they have ended.
fn lead_on<R: Wait, G: Gate>(
    grounds: &Grounds<Waiting<R>>,
    common: &Common,
    berths: &[Berth],
    lead: Lead,
    duty: &mut Duty,
    gate: &G,
) -> Lead
    requires company { IsCompanyOf (plan_at grounds.now) common.now.company }
    requires berths { AreAt (board_at grounds.now) berths.now }
    requires lead { IsLead (board_at grounds.now) lead.room lead.answers.items }
    requires reserved { length (asking (plan_at grounds.now)) ≤ vec_capacity lead.answers }
    ensures { IsLead (board_at grounds.now) result.room result.answers.items }
{
    let Lead { room, mut answers } = lead;
    let room = host_turns(grounds, common, berths, room, &mut answers, duty, gate);
    last_turns(grounds, common, berths, duty, gate);
    Lead { room, answers }
}

/// The look at the end, when all have ended: the host's pass comes to know all jobs finished.
fn finish<R: Wait>(grounds: &Grounds<Waiting<R>>, lead: Lead) -> Done
    requires lead { IsLead (board_at grounds.now) lead.room lead.answers.items }
    ensures { IsDone (board_at grounds.now) result.pass result.answers.items }
{
    let Lead { room, answers } = lead;
    let mut pass = room.into_pass();
    see_all(grounds, &mut pass);
    Done { pass, answers }
}
