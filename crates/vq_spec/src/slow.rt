//! The slow run of a plan: what its script means.
//!
//! Source: this project's own, where an item names no other.
ghost use Rattle.std.specs.Prelude.{◌≡◌, ◌<◌, IfOk, length, map};
ghost use Rattle.vq_model.specs.LoweredPlans.{IsPlan};
ghost use Rattle.vq_model.specs.FittingCommands.{HasSizes};
ghost use Rattle.vq_model.specs.Memory.{after_all, zeros_of};
ghost use Rattle.vq_model.specs.Plan.{commands_of};
ghost use Rattle.vq_model.specs.SlowRun.{command_list, slow_order, left_over, final};
ghost use Rattle.vq_model.specs.SameScript.{IsRead};
ghost use Rattle.vq_model.specs.ValidScripts.{sizes_of};

use crate::order::{SlowOrder, slow_order};
use crate::plan::Plan;
use std::alloc::{AllocError, Global};
use vq_model::list::List;
use vq_model::script::Script;
use vq_transfer::Buffers;

/// What a slow run does: again and again the lowest job that can be done is done whole.
#[derive(Drop)]
pub struct SlowRun {
    /// The jobs that it does, in their order.
    pub order: List<u32>,
    /// The jobs that it leaves.
    pub stuck: List<u32>,
    /// The bytes of the buffers after it.
    pub buffers: Buffers,
}

/// The sizes of a script's buffers.
fn sizes_of(alloc: Global, script: &Script) -> Result<Vec<u32>, AllocError>
    ensures { IfOk result (λ sizes. sizes.items ≡ sizes_of script.now) }
{
    let buffers = script.buffers.as_slice();
    let mut sizes = Vec::with_capacity(alloc, buffers.len())?;
    for buffer in buffers {
        sizes.push(buffer.size)?;
    }
    Ok(sizes)
}

/// Buffers of the sizes that a script declares, all bytes zero. The error is want of memory.
pub fn zero_buffers(alloc: Global, script: &Script) -> Result<Buffers, AllocError>
    requires { IsRead script.now }
    ensures bytes { IfOk result (λ buffers. buffers ≡ zeros_of (sizes_of script.now)) }
    ensures sizes { IfOk result (λ buffers. HasSizes (sizes_of script.now) buffers) }
{
    let sizes = sizes_of(alloc, script)?;
    Buffers::new(alloc, sizes.as_slice())
}

/// Applies the commands of a job.
fn apply_job(plan: &Plan, j: u32, buffers: &mut Buffers)
    requires plan { IsPlan plan.now }
    requires exists { j < length plan.now.jobs }
    requires sizes { map length buffers.old ≡ plan.now.sizes }
    ensures bytes { buffers.new
        ≡ after_all (command_list plan.now (commands_of plan.now j)) buffers.old }
    ensures sizes { map length buffers.new ≡ plan.now.sizes }
{
    for c in plan.commands_of(j) {
        buffers.apply(&plan.command(*c).command);
    }
}

/// The buffers after the jobs of a plan were done in the order of its slow run, each whole. The
/// error is want of memory.
pub fn apply_in_order(alloc: Global, plan: &Plan, order: &[u32]) -> Result<Buffers, AllocError>
    requires { order.now ≡ slow_order plan.now }
    ensures bytes { IfOk result (λ buffers. buffers ≡ final plan.now) }
    ensures sizes { IfOk result (λ buffers. HasSizes (sizes_of plan.now.script) buffers) }
{
    let mut buffers = zero_buffers(alloc, plan.script())?;
    for j in order {
        apply_job(plan, *j, &mut buffers);
    }
    Ok(buffers)
}

/// The slow run of a plan. The error is want of memory.
pub fn slow_run(alloc: Global, plan: &Plan) -> Result<SlowRun, AllocError>
    ensures order { IfOk result (λ run. run.order ≡ slow_order plan.now) }
    ensures stuck { IfOk result (λ run. run.stuck ≡ left_over plan.now) }
    ensures bytes { IfOk result (λ run. run.buffers ≡ final plan.now) }
    ensures sizes { IfOk result (λ run. HasSizes (sizes_of plan.now.script) run.buffers) }
{
    let SlowOrder { order, stuck, .. } = slow_order(alloc, plan)?;
    let buffers = apply_in_order(alloc, plan, order.as_slice())?;
    Ok(SlowRun {
        order,
        stuck,
        buffers,
    })
}
