//! Batches that have nothing to do with other jobs, handed on by the host and started by their rings.
ghost use Rattle.std.specs.Prelude.{◌≡◌, ◌+◌, true};
ghost use Rattle.vq_board.specs.Named.{plan_of, view};
ghost use Rattle.vq_board_stage.specs.Batches.{AllExist, IsPlain, IsAlone, HasHandedOn, IsReady, IsRunning};

use crate::three_signals::is_batch;
use vq_board::{Board, JobState, Pass};
use vq_spec::{Plan, PlanJob};

/// Whether a job is a batch of the queue with these commands, and has nothing to do with other jobs.
fn is_plain(job: &PlanJob, queue: u32, commands: &[u32]) -> bool
    ensures { result ≡ true → IsPlain job.now queue commands.now }
{
    is_batch(job, queue, commands, &[]) && job.previous.is_none() && job.needs.len() == 0
}

/// Whether each of the commands is one of the plan.
fn all_exist(plan: &Plan, commands: &[u32]) -> bool
    ensures { result ≡ true → AllExist plan.now commands.now }
{
    for command in commands {
        if *command >= plan.commands() {
            return false;
        }
    }
    true
}

/// Whether job j is a batch of queue j with these commands, which the host releases.
pub fn is_alone(plan: &Plan, j: u32, commands: &[u32]) -> bool
    ensures { result ≡ true → IsAlone plan.now j commands.now }
{
    if j >= plan.jobs() || !all_exist(plan, commands) {
        return false;
    }
    !plan.script().is_threaded(j) && is_plain(plan.job(j), j, commands)
}

/// The host submits and releases the next job.
#[tactic(auto, using(crate::proofs::Asks::knows_so_far))]
pub fn hand_on(board: &Board, host: &mut Pass, j: u32, commands: &[u32])
    requires alone { IsAlone (plan_of board.now) j commands.now }
    requires host { HasHandedOn board.now host.old j }
    ensures { HasHandedOn board.now host.new (j + 1) }
{
    let _ = commands;
    board.submit(host, j);
    board.release(host, j);
}

/// Starts the batch that the ring's pass is to run, where it is released.
#[tactic(auto, using(crate::proofs::Asks::needs_nothing, crate::proofs::Asks::knows_so_far))]
pub fn start(board: &Board, pass: &mut Pass, j: u32, commands: &[u32]) -> bool
    requires ready { IsReady board.now pass.old j commands.now }
    ensures running { result ≡ true → IsRunning board.now pass.new j }
    ensures entered { result ≡ true → (view pass.new).entered ≡ 0 }
{
    let _ = commands;
    if board.job_state(pass, j) != JobState::Released {
        return false;
    }
    board.start(pass, j);
    true
}
