//! Whether a plan is the one for which the steps of this program are written.
ghost use Rattle.std.specs.Prelude.{◌≡◌, ◌<◌, length, [], ◌∷◌, true, Some};
ghost use Rattle.vq_model.specs.Plan.{needs, resolver};
ghost use Rattle.vq_board_example.specs.FillAndCopy.{IsBatch, HasBatch, IsRead, HasRead, WaitsFor};
ghost use Rattle.vq_board_example.specs.FillAndCopy.{HasJobs, HasSignal, IsFillAndCopy};

use vq_spec::{Lane, Need, Plan, PlanJob, Question};

/// Whether a job is a batch of the queue with these commands and signals, and the first of its queue.
fn is_batch(job: &PlanJob, queue: u32, commands: &[u32], signals: &[u32]) -> bool
    ensures { result ≡ true → IsBatch job.now queue commands.now signals.now }
{
    let Lane::Queue(own) = job.lane else {
        return false;
    };
    if own != queue || job.any || job.previous.is_some() || job.idle_after.len() != 0 {
        return false;
    }
    if !job.commands.are(commands) || !job.signals.are(signals) {
        return false;
    }
    matches!(job.question, Question::Silent)
}

/// Whether job j is a batch of queue j, which has a submitting thread, with these commands and signals.
fn has_batch(plan: &Plan, j: u32, commands: &[u32], signals: &[u32]) -> bool
    ensures { result ≡ true → HasBatch plan.now j commands.now signals.now }
{
    if j >= plan.jobs() {
        return false;
    }
    plan.script().is_threaded(j) && is_batch(plan.job(j), j, commands, signals)
}

/// Whether a job is the host's first step, and reads this chain.
fn is_read(job: &PlanJob, chain: u32) -> bool
    ensures { result ≡ true → IsRead job.now chain }
{
    let Question::Value(read) = job.question else {
        return false;
    };
    if !matches!(job.lane, Lane::Host) || job.any || job.previous.is_some() || read != chain {
        return false;
    }
    if job.idle_after.len() != 0 || job.needs.len() != 0 {
        return false;
    }
    job.commands.len() == 0 && job.signals.len() == 0
}

/// Whether job j is the host's first step, and reads this chain.
fn has_read(plan: &Plan, j: u32, chain: u32) -> bool
    ensures { result ≡ true → HasRead plan.now j chain }
{
    if j >= plan.jobs() {
        return false;
    }
    is_read(plan.job(j), chain)
}

/// Whether the operation resolves the wait.
fn is_resolved(plan: &Plan, need: &Need, op: u32) -> bool
    ensures { result ≡ true → resolver plan.now need.now.chain need.now.value ≡ Some op }
{
    need.chain < plan.chains() && plan.resolver(need.chain, need.value) == Some(op)
}

/// Whether job j has one wait, and the operation resolves it.
fn waits_for(plan: &Plan, j: u32, op: u32) -> bool
    requires { j < length plan.now.jobs }
    ensures { result ≡ true → WaitsFor plan.now j op }
{
    match plan.job(j).needs.as_slice() {
        [need] => is_resolved(plan, need, op),
        _ => false,
    }
}

/// Whether the jobs are those of the script.
fn has_jobs(plan: &Plan) -> bool
    ensures { result ≡ true → HasJobs plan.now }
{
    if plan.jobs() != 3 || plan.commands() != 2 {
        return false;
    }
    if !has_batch(plan, 0, &[0], &[0]) || !has_batch(plan, 1, &[1], &[]) || !has_read(plan, 2, 0) {
        return false;
    }
    plan.job(0).needs.len() == 0 && waits_for(plan, 1, 0)
}

/// Whether the signal is that of the script.
fn has_signal(plan: &Plan) -> bool
    ensures { result ≡ true → HasSignal plan.now }
{
    if plan.ops() != 1 || plan.chains() != 1 || plan.chain(0) != [0u32].as_slice() {
        return false;
    }
    let op = plan.op(0);
    op.chain == 0 && op.job == 0 && op.value == 1
}

/// Whether the plan is that of the script of this program.
pub(crate) fn is_fill_and_copy(plan: &Plan) -> bool
    ensures { result ≡ true → IsFillAndCopy plan.now }
{
    has_jobs(plan) && has_signal(plan)
}
