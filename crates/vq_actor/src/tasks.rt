//! One task of a turn.
ghost use Rattle.std.specs.Prelude.{◌≡◌};
ghost use Rattle.vq_turns.specs.declared.task.Task.{Task};
ghost use Rattle.vq_actor.specs.Meanings.{IsNext};
ghost use Rattle.vq_actor.specs.Positions.{MayBeDone};
ghost use Rattle.vq_actor.specs.Doings.{DidTo};

use crate::access::Access;
use crate::asking::{answer, compare};
use crate::doing::Doing;
use crate::looks::{await_bound, await_finished, await_released, await_submitted};
use crate::moves::{apply, bind, finish, release, signal, start, submit, take};
use crate::needs::await_needs;
use vq_model::script::ActorName;
use vq_turns::task::Task;

/// Does the next task.
pub(crate) fn do_task<A: Access>(access: &mut A, actor: ActorName, task: &Task) -> Doing
    requires next { IsNext (A.meaning access.old) task.now }
    requires may { MayBeDone (A.meaning access.old).plan task.now }
    requires actor { actor ≡ (A.meaning access.old).actor }
    ensures { DidTo (A.meaning access.old) (A.meaning access.new) task.now (A.shows access.new) result }
{
    match task {
        Task::AwaitSubmitted { job } => await_submitted(access, *job),
        Task::AwaitReleased { job } => await_released(access, *job),
        Task::AwaitFinished { job } => await_finished(access, *job),
        Task::AwaitBound { op } => await_bound(access, *op),
        Task::AwaitNeeds { needs } => await_needs(access, actor, needs),
        Task::Submit { job } => submit(access, *job),
        Task::Take { op, chain } => take(access, *chain, *op),
        Task::Release { job } => release(access, *job),
        Task::Bind { op } => bind(access, *op),
        Task::Start { job } => start(access, *job),
        Task::Apply { job, command } => apply(access, *job, *command),
        Task::Signal { op } => signal(access, *op),
        Task::Compare { chain, wanted } => compare(access, *chain, *wanted),
        Task::Answer { job, question } => answer(access, *job, *question),
        Task::Finish { job } => finish(access, *job),
    }
}
