//! The programs of queues: those of submit actors and of rings.
ghost use Rattle.std.specs.Prelude.{◌≡◌, ◌<◌, ◌++◌, [], ◌∷◌, length, OnOk, IfOk};
ghost use Rattle.std.specs.List.{enumerate_from, flat_map};
ghost use Rattle.vq_model.specs.LoweredPlans.{IsPlan};
ghost use Rattle.vq_model.specs.Plan.{commands_of, needs};
ghost use Rattle.vq_model.specs.declared.script.ActorName.{ActorName};
ghost use Rattle.vq_turns.specs.declared.task.Task.{Task};
ghost use Rattle.vq_turns.specs.Programs.{moves_batch, program, runs_batch, runs_command, submits_batch};
ghost use Rattle.vq_actor.specs.ProgramParts.{is_of_queue};

use crate::programs::signals::{push_awaits, push_binds, push_signals, push_takes};
use crate::programs::waits::{Within, push_waits};
use std::alloc::{AllocError, Global};
use vq_model::plan::{Lane, PlanJob};
use vq_spec::Plan;
use vq_turns::task::Task;

/// Adds the tasks that release a batch, from its awaited signals to the bounds of its own.
pub(crate) fn push_moves(tasks: &mut Vec<Task>, plan: &Plan, j: u32) -> Result<(), AllocError>
    requires read { IsPlan plan.now }
    requires exists { j < length plan.now.jobs }
    ensures { OnOk result (tasks.new.items ≡ tasks.old.items ++ moves_batch plan.now j) }
{
    let signals = plan.signals_of(j);
    push_awaits(tasks, plan.awaited(j))?;
    push_takes(tasks, plan, signals)?;
    tasks.push(Task::Release { job: j })?;
    push_binds(tasks, signals)
}

/// Adds the tasks of a batch that its queue's submit actor does.
fn push_submits(tasks: &mut Vec<Task>, plan: &Plan, j: u32) -> Result<(), AllocError>
    requires read { IsPlan plan.now }
    requires exists { j < length plan.now.jobs }
    ensures { OnOk result (tasks.new.items ≡ tasks.old.items ++ submits_batch plan.now j) }
{
    tasks.push(Task::AwaitSubmitted { job: j })?;
    push_moves(tasks, plan, j)
}

/// Adds the commands of a batch, each after the waits that hold back its place.
fn push_commands(tasks: &mut Vec<Task>, plan: &Plan, j: u32) -> Result<(), AllocError>
    requires exists { j < length plan.now.jobs }
    ensures { OnOk result (tasks.new.items ≡ tasks.old.items
        ++ flat_map (runs_command plan.now j) (enumerate_from 1 (commands_of plan.now j))) }
{
    let needs = plan.job(j).needs.as_slice();
    let commands = plan.commands_of(j);
    for place in 0..commands.len() {
        push_waits(tasks, Within::Place(place + 1), needs)?;
        tasks.push(Task::Apply {
            job: j,
            command: commands[place],
        })?;
    }
    Ok(())
}

/// Adds the tasks of a batch that its queue's ring does.
fn push_runs(tasks: &mut Vec<Task>, plan: &Plan, j: u32) -> Result<(), AllocError>
    requires exists { j < length plan.now.jobs }
    ensures { OnOk result (tasks.new.items ≡ tasks.old.items ++ runs_batch plan.now j) }
{
    let job = plan.job(j);
    let needs = job.needs.as_slice();
    tasks.push(Task::AwaitReleased { job: j })?;
    push_waits(tasks, Within::Start, needs)?;
    tasks.push(Task::Start { job: j })?;
    push_commands(tasks, plan, j)?;
    push_waits(tasks, Within::Behind(job.commands.len()), needs)?;
    push_signals(tasks, plan.signals_of(j))?;
    tasks.push(Task::Finish { job: j })?;
    Ok(())
}

/// Whether a job is a batch of a queue.
fn is_of_queue(job: &PlanJob, queue: u32) -> bool
    ensures { result ≡ is_of_queue queue job.now }
{
    match job.lane {
        Lane::Host => false,
        Lane::Queue(other) => queue == other,
    }
}

/// The tasks of a queue's submit actor.
pub(crate) fn submit_program(
    alloc: Global,
    plan: &Plan,
    queue: u32,
) -> Result<Vec<Task>, AllocError>
    requires { IsPlan plan.now }
    ensures { IfOk result (λ tasks. tasks.items ≡ program plan.now (ActorName.Submit queue)) }
{
    let mut tasks = Vec::new(alloc);
    for j in 0..plan.jobs() {
        if !is_of_queue(plan.job(j), queue) {
            continue;
        }
        push_submits(&mut tasks, plan, j)?;
    }
    Ok(tasks)
}

/// The tasks of a queue's ring.
pub(crate) fn ring_program(alloc: Global, plan: &Plan, queue: u32) -> Result<Vec<Task>, AllocError>
    ensures { IfOk result (λ tasks. tasks.items ≡ program plan.now (ActorName.Ring queue)) }
{
    let mut tasks = Vec::new(alloc);
    for j in 0..plan.jobs() {
        if !is_of_queue(plan.job(j), queue) {
            continue;
        }
        push_runs(&mut tasks, plan, j)?;
    }
    Ok(tasks)
}
