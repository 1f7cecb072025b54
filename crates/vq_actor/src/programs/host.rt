//! The program of the host: it does host steps, submits batches, and releases those of immediate queues.
ghost use Rattle.std.specs.Prelude.{◌≡◌, ◌<◌, ◌++◌, [], ◌∷◌, if◌then◌else◌, map, length};
ghost use Rattle.std.specs.Prelude.{OnOk, IfOk};
ghost use Rattle.vq_model.specs.Checks.{is_immediate_batch};
ghost use Rattle.vq_model.specs.LoweredPlans.{IsPlan};
ghost use Rattle.vq_model.specs.Plan.{is_silent};
ghost use Rattle.vq_model.specs.declared.script.ActorName.{ActorName};
ghost use Rattle.vq_turns.specs.declared.task.Task.{Task};
ghost use Rattle.vq_turns.specs.Programs.{does_step, host_does, host_waits, moves_batch, program};

use crate::programs::batches::push_moves;
use crate::programs::signals::{push_binds, push_signals, push_takes};
use crate::programs::waits::{Within, push_waits};
use std::alloc::{AllocError, Global};
use vq_model::plan::{Lane, Need, Question};
use vq_spec::Plan;
use vq_turns::needs::Needs;
use vq_turns::task::Task;

/// Adds the waits of a host step: one for any of its needs, or one for each.
fn push_host_waits(
    alloc: Global,
    tasks: &mut Vec<Task>,
    plan: &Plan,
    j: u32,
) -> Result<(), AllocError>
    requires exists { j < length plan.now.jobs }
    ensures { OnOk result (tasks.new.items ≡ tasks.old.items ++ host_waits plan.now j) }
{
    let job = plan.job(j);
    let needs = job.needs.as_slice();
    if job.any {
        let needs = Needs::of(alloc, needs)?;
        tasks.push(Task::AwaitNeeds { needs })?;
        return Ok(());
    }
    push_waits(tasks, Within::Whole, needs)
}

/// Adds tasks that wait until these jobs are finished.
fn push_idle(tasks: &mut Vec<Task>, jobs: &[u32]) -> Result<(), AllocError>
    ensures { OnOk result (tasks.new.items ≡ tasks.old.items ++ map Task.AwaitFinished jobs.now) }
{
    for job in jobs {
        tasks.push(Task::AwaitFinished { job: *job })?;
    }
    Ok(())
}

/// Adds tasks that compare these values.
fn push_compares(tasks: &mut Vec<Task>, asked: &[Need]) -> Result<(), AllocError>
    ensures { OnOk result (tasks.new.items ≡ tasks.old.items
        ++ map (λ n. Task.Compare n.chain n.value) asked.now) }
{
    for need in asked {
        tasks.push(Task::Compare {
            chain: need.chain,
            wanted: need.value,
        })?;
    }
    Ok(())
}

/// Adds the task that answers a question, if something is asked.
fn push_answer(tasks: &mut Vec<Task>, j: u32, question: Question) -> Result<(), AllocError>
    ensures { OnOk result (tasks.new.items ≡ tasks.old.items
        ++ (if is_silent question then [] else Task.Answer j question ∷ [])) }
{
    if let Question::Silent = question {
        return Ok(());
    }
    tasks.push(Task::Answer { job: j, question })?;
    Ok(())
}

/// Adds the tasks of a host step.
fn push_step(alloc: Global, tasks: &mut Vec<Task>, plan: &Plan, j: u32) -> Result<(), AllocError>
    requires read { IsPlan plan.now }
    requires exists { j < length plan.now.jobs }
    ensures { OnOk result (tasks.new.items ≡ tasks.old.items ++ does_step plan.now j) }
{
    let job = plan.job(j);
    let signals = plan.signals_of(j);
    push_host_waits(alloc, tasks, plan, j)?;
    push_idle(tasks, job.idle_after.as_slice())?;
    tasks.push(Task::Start { job: j })?;
    push_takes(tasks, plan, signals)?;
    push_binds(tasks, signals)?;
    push_signals(tasks, signals)?;
    push_compares(tasks, job.asked.as_slice())?;
    push_answer(tasks, j, job.question)?;
    tasks.push(Task::Finish { job: j })?;
    Ok(())
}

/// Adds the tasks of a batch that the host does.
fn push_batch(tasks: &mut Vec<Task>, plan: &Plan, j: u32) -> Result<(), AllocError>
    requires read { IsPlan plan.now }
    requires exists { j < length plan.now.jobs }
    ensures { OnOk result (tasks.new.items ≡ tasks.old.items
        ++ Task.Submit j ∷ (if is_immediate_batch plan.now j then moves_batch plan.now j else [])) }
{
    tasks.push(Task::Submit { job: j })?;
    if plan.is_immediate(j) {
        return push_moves(tasks, plan, j);
    }
    Ok(())
}

/// Adds the tasks of a job that the host does.
fn push_job(alloc: Global, tasks: &mut Vec<Task>, plan: &Plan, j: u32) -> Result<(), AllocError>
    requires read { IsPlan plan.now }
    requires exists { j < length plan.now.jobs }
    ensures { OnOk result (tasks.new.items ≡ tasks.old.items ++ host_does plan.now j) }
{
    match plan.job(j).lane {
        Lane::Host => push_step(alloc, tasks, plan, j),
        Lane::Queue(_) => push_batch(tasks, plan, j),
    }
}

/// The tasks of the host.
pub(crate) fn host_program(alloc: Global, plan: &Plan) -> Result<Vec<Task>, AllocError>
    requires { IsPlan plan.now }
    ensures { IfOk result (λ tasks. tasks.items ≡ program plan.now ActorName.Host) }
{
    let mut tasks = Vec::new(alloc);
    for j in 0..plan.jobs() {
        push_job(alloc, &mut tasks, plan, j)?;
    }
    Ok(tasks)
}
