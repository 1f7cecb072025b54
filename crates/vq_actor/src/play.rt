//! A turn over the tasks that are left.
ghost use Rattle.std.specs.Prelude.{◌≡◌, All};
ghost use Rattle.vq_turns.specs.declared.outcome.Outcome.{Outcome as AnyOutcome};
ghost use Rattle.vq_turns.specs.Programs.{program};
ghost use Rattle.vq_actor.specs.Actors.{IsTurn};
ghost use Rattle.vq_actor.specs.Positions.{MayBeDone};

use crate::access::Access;
use crate::doing::Doing;
use crate::tasks::do_task;
use vq_model::script::ActorName;
use vq_turns::outcome::Outcome;
use vq_turns::task::Task;

/// Does the tasks that are left until one makes an event or is blocked.
pub(crate) fn play<A: Access>(access: &mut A, actor: ActorName, tasks: &[Task]) -> Outcome
    requires program { tasks.now ≡ program (A.meaning access.old).plan actor }
    requires actor { actor ≡ (A.meaning access.old).actor }
    requires may { All (MayBeDone (A.meaning access.old).plan) tasks.now }
    ensures turn { IsTurn (A.meaning access.old) (A.meaning access.new) (A.shows access.new) result }
    ensures untouched { result ≡ AnyOutcome.Ended → access.new ≡ access.old }
{
    let first = access.place().done();
    for k in first..tasks.len() {
        match do_task(access, actor, &tasks[k]) {
            Doing::GoesOn => {}
            Doing::Ends(outcome) => return outcome,
        }
    }
    Outcome::Ended
}
