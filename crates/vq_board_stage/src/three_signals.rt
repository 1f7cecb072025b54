//! Whether a plan is that of the tests on points.
ghost use Rattle.std.specs.Prelude.{◌≡◌, ◌<◌, length, [], true, None};
ghost use Rattle.vq_model.specs.Plan.{needs, previous};
ghost use Rattle.vq_board_laws.specs.declared.view.Role.TheVariants.{Submit};
ghost use Rattle.vq_board_stage.specs.ThreeSignals.{IsBatch, HasBatch, WaitsFor, IsSignal};
ghost use Rattle.vq_board_stage.specs.ThreeSignals.{HasBatches, HasSignals, IsOfThreeSignals};

use vq_spec::{Lane, Plan, PlanJob, Question};

/// Whether a job is a batch of the queue with these commands and signals.
pub fn is_batch(job: &PlanJob, queue: u32, commands: &[u32], signals: &[u32]) -> bool
    ensures { result ≡ true → IsBatch job.now queue commands.now signals.now }
{
    let Lane::Queue(own) = job.lane else {
        return false;
    };
    if own != queue || job.any || job.idle_after.len() != 0 {
        return false;
    }
    if !job.commands.are(commands) || !job.signals.are(signals) {
        return false;
    }
    matches!(job.question, Question::Silent)
}

/// Whether job j is a batch of the threaded queue with these commands and signals.
pub fn has_batch(plan: &Plan, j: u32, queue: u32, commands: &[u32], signals: &[u32]) -> bool
    ensures { result ≡ true →
        HasBatch plan.now j queue (Submit queue) commands.now signals.now }
{
    if j >= plan.jobs() {
        return false;
    }
    plan.script().is_threaded(queue) && is_batch(plan.job(j), queue, commands, signals)
}

/// Whether job j waits for nothing.
pub fn waits_for_nothing(plan: &Plan, j: u32) -> bool
    requires { j < length plan.now.jobs }
    ensures { result ≡ true → needs plan.now j ≡ [] }
{
    plan.job(j).needs.len() == 0
}

/// Whether job j waits for this value of the chain alone.
fn waits_for(plan: &Plan, j: u32, chain: u32, value: u64) -> bool
    requires { j < length plan.now.jobs }
    ensures { result ≡ true → WaitsFor plan.now j chain value }
{
    match plan.job(j).needs.as_slice() {
        [need] => need.chain == chain && need.value == value,
        _ => false,
    }
}

/// Whether job j is the first of its lane.
pub fn begins(plan: &Plan, j: u32) -> bool
    requires { j < length plan.now.jobs }
    ensures { result ≡ true → previous plan.now j ≡ None }
{
    plan.job(j).previous.is_none()
}

/// Whether the batches are those of the script.
fn has_batches(plan: &Plan) -> bool
    ensures { result ≡ true → HasBatches plan.now }
{
    if !has_batch(plan, 0, 0, &[0], &[0]) || !has_batch(plan, 1, 1, &[], &[]) {
        return false;
    }
    if !has_batch(plan, 2, 0, &[], &[1]) || !begins(plan, 0) || !waits_for_nothing(plan, 0) {
        return false;
    }
    waits_for(plan, 1, 0, 1) && waits_for_nothing(plan, 2) && plan.commands() != 0
}

/// Whether operation e is a signal of the chain by the job.
pub fn is_signal(plan: &Plan, e: u32, chain: u32, job: u32) -> bool
    requires { e < length plan.now.ops }
    ensures { result ≡ true → IsSignal plan.now e chain job }
{
    let op = plan.op(e);
    op.chain == chain && op.job == job
}

/// Whether the signals are those of the script.
fn has_signals(plan: &Plan) -> bool
    ensures { result ≡ true → HasSignals plan.now }
{
    if plan.ops() != 3 || plan.chains() != 1 {
        return false;
    }
    if !is_signal(plan, 0, 0, 0) || !is_signal(plan, 1, 0, 2) || !is_signal(plan, 2, 0, 3) {
        return false;
    }
    plan.chain(0) == [0u32, 1, 2].as_slice() && plan.resolver(0, 1) == Some(0)
}

/// Whether the plan is that of three batches with signals and one that waits.
pub fn is_of_three_signals(plan: &Plan) -> bool
    ensures { result ≡ true → IsOfThreeSignals plan.now }
{
    has_batches(plan) && has_signals(plan)
}
