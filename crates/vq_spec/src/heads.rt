//! The first job of each lane that isn't done.
ghost use Rattle.std.specs.Prelude.{◌≡◌, ◌≢◌, ◌<◌, ◌≤◌, ◌++◌, ◌∷◌, [], ℕ, List, true};
ghost use Rattle.std.specs.Prelude.{length, IfOk};
ghost use Rattle.vq_model.specs.Lanes.{lane_at};
ghost use Rattle.vq_model.specs.LoweredPlans.{IsPlan};
ghost use Rattle.vq_model.specs.SlowRun.{is_ready};
ghost use Rattle.vq_spec.specs.SlowProgress.{IsClosed, AreHeads};

use crate::plan::Plan;
use std::alloc::{AllocError, Global};

/// The first job of a lane from a job on, or the number of jobs.
fn next_in_lane(plan: &Plan, lane: usize, from: u32) -> u32
    requires { from ≤ length plan.now.jobs }
    ensures within { result ≤ length plan.now.jobs }
    ensures at { from ≤ result }
    ensures none { (i : ℕ) → from ≤ i → i < result → lane_at plan.now i ≢ lane }
    ensures in_lane { result < length plan.now.jobs → lane_at plan.now result ≡ lane }
{
    let mut job = from;
    while job < plan.jobs() {
        if plan.job(job).lane.number() == lane {
            return job;
        }
        job += 1;
    }
    job
}

/// The first job of each lane.
pub(crate) fn first_heads(alloc: Global, plan: &Plan) -> Result<Vec<u32>, AllocError>
    ensures heads { IfOk result (λ heads. AreHeads plan.now [] heads.items) }
    ensures plan { IfOk result (λ heads. IsPlan plan.now) }
{
    let mut heads = Vec::new(alloc);
    for lane in 0..plan.script().queues.as_slice().len() + 1 {
        heads.push(next_in_lane(plan, lane, 0))?;
    }
    Ok(heads)
}

/// Moves the head of a job's lane on, where the job is done.
pub(crate) fn pass_head(heads: &mut [u32], plan: &Plan, j: u32)
    requires plan { IsPlan plan.now }
    requires exists { j < length plan.now.jobs }
    requires lane { lane_at plan.now j < length heads.old }
    ensures { (done : List ℕ) → IsClosed plan.now done → is_ready plan.now done j ≡ true →
        AreHeads plan.now done heads.old → AreHeads plan.now (done ++ j ∷ []) heads.new }
{
    let lane = plan.job(j).lane.number();
    heads[lane] = next_in_lane(plan, lane, j + 1);
}
