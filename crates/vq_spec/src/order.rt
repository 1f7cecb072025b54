//! The order of the slow run of a plan.
//!
//! Source: this project's own, where an item names no other.
ghost use Rattle.std.specs.Prelude.{◌≡◌, ◌<◌, ◌^◌, ◌++◌, ◌∷◌, [], if◌then◌else◌, IfOk};
ghost use Rattle.std.specs.Prelude.{OnOk, length, filter, not};
ghost use Rattle.std.specs.List.{range_with_len};
ghost use Rattle.vq_model.specs.LoweredPlans.{IsPlan};
ghost use Rattle.vq_model.specs.SlowRun.{slow_order, left_over};
ghost use Rattle.vq_spec.specs.SlowProgress.{is_marked, ArePayloads, HasCome};

use crate::plan::Plan;
use crate::progress::SlowState;
use std::alloc::{AllocError, Global};
use vq_model::list::List;

/// The order of a slow run: again and again the lowest job that can be done is done whole.
#[derive(Drop)]
pub struct SlowOrder {
    /// The jobs that it does, in their order.
    pub order: List<u32>,
    /// The jobs that it leaves.
    pub stuck: List<u32>,
    /// The payload of each chain after it.
    pub payloads: List<u64>,
}

/// How far a slow run comes.
fn run_slowly(alloc: Global, plan: &Plan) -> Result<SlowState, AllocError>
    ensures come { IfOk result (λ s. HasCome plan.now s) }
    ensures order { IfOk result (λ s. s.order.items ≡ slow_order plan.now) }
{
    let mut progress = SlowState::new(alloc, plan)?;
    for _round in 0..plan.jobs() {
        match progress.lowest_ready(plan) {
            Some(j) => progress.finish(plan, j)?,
            None => return Ok(progress),
        }
    }
    Ok(progress)
}

/// Adds a job that isn't done.
fn push_left(jobs: &mut Vec<u32>, is_done: bool, j: u32) -> Result<(), AllocError>
    ensures { OnOk result
        (jobs.new.items ≡ jobs.old.items ++ (if is_done then [] else j ∷ [])) }
{
    if !is_done {
        jobs.push(j)?;
    }
    Ok(())
}

/// The jobs without a mark.
fn unmarked(alloc: Global, marks: &[bool]) -> Result<List<u32>, AllocError>
    requires { length marks.now < 2 ^ 32 }
    ensures { IfOk result (λ jobs. jobs
        ≡ filter (λ j. not (is_marked marks.now j)) (range_with_len 0 (length marks.now))) }
{
    let mut jobs = Vec::new(alloc);
    for j in 0..marks.len() as u32 {
        push_left(&mut jobs, marks[j as usize], j)?;
    }
    Ok(List::of(jobs))
}

/// The order of the slow run of a plan, without its commands. The error is want of memory.
pub fn slow_order(alloc: Global, plan: &Plan) -> Result<SlowOrder, AllocError>
    ensures plan { IfOk result (λ run. IsPlan plan.now) }
    ensures order { IfOk result (λ run. run.order ≡ slow_order plan.now) }
    ensures stuck { IfOk result (λ run. run.stuck ≡ left_over plan.now) }
    ensures payloads { IfOk result (λ run.
        ArePayloads plan.now (slow_order plan.now) run.payloads) }
{
    let SlowState {
        order,
        marks,
        payloads,
        heads: _,
    } = run_slowly(alloc, plan)?;
    let stuck = unmarked(alloc, marks.as_slice())?;
    Ok(SlowOrder {
        order: List::of(order),
        stuck,
        payloads: List::of(payloads),
    })
}
