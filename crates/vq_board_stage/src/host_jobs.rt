//! Whether jobs of a plan are steps of the host that read a chain or signal one.
ghost use Rattle.std.specs.Prelude.{◌≡◌, ◌<◌, ℕ, true, Some};
ghost use Rattle.vq_board_stage.specs.HostSteps.{IsHostStep, HasRead, HasSignal, AreSingle};

use crate::three_signals::is_signal;
use vq_spec::{Lane, Plan, PlanJob, Question};

/// Whether the job before job j in its lane, if there is one, is an earlier one.
fn follows(job: &PlanJob, j: u32) -> bool
    ensures { result ≡ true → (i : ℕ) → job.now.previous ≡ Some i → i < j }
{
    match job.previous {
        Some(previous) => previous < j,
        None => true,
    }
}

/// Whether job j is a step of the host that waits for no signal and has no command.
fn is_host_step(job: &PlanJob, j: u32) -> bool
    ensures { result ≡ true → IsHostStep job.now j }
{
    if !matches!(job.lane, Lane::Host) || job.any || !follows(job, j) {
        return false;
    }
    job.idle_after.len() == 0 && job.needs.len() == 0 && job.commands.len() == 0
}

/// Whether job j is a step of the host that reads this chain.
pub fn reads(plan: &Plan, j: u32, chain: u32) -> bool
    ensures { result ≡ true → HasRead plan.now j chain }
{
    if j >= plan.jobs() {
        return false;
    }
    let job = plan.job(j);
    match job.question {
        Question::Value(read) => read == chain && job.signals.len() == 0 && is_host_step(job, j),
        _ => false,
    }
}

/// Whether job j is a step of the host that asks nothing and makes this signal alone, of the chain with
/// the same number.
pub fn signals(plan: &Plan, j: u32, op: u32) -> bool
    ensures { result ≡ true → HasSignal plan.now j op }
{
    if j >= plan.jobs() || op >= plan.ops() || !is_signal(plan, op, op, j) {
        return false;
    }
    let job = plan.job(j);
    if !matches!(job.question, Question::Silent) || !job.signals.are(&[op]) {
        return false;
    }
    is_host_step(job, j)
}

/// Whether no chain has two signals.
pub fn are_single(plan: &Plan) -> bool
    ensures { result ≡ true → AreSingle plan.now }
{
    for t in 0..plan.chains() {
        if plan.chain(t).len() > 1 {
            return false;
        }
    }
    true
}
