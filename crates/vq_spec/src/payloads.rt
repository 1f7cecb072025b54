//! The payloads of chains in a slow run.
ghost use Rattle.std.specs.Prelude.{◌≡◌, ◌<◌, ◌++◌, ◌∷◌, [], ℕ, List, length, IfOk};
ghost use Rattle.vq_model.specs.LoweredPlans.{IsPlan};
ghost use Rattle.vq_spec.specs.SlowProgress.{ArePayloads, PayloadsWith};

use crate::plan::Plan;
use std::alloc::{AllocError, Global};

/// The payload of each chain before any signal. The error is want of memory.
///
/// Source: Vulkan 1.3, VkSemaphoreTypeCreateInfo.
pub(crate) fn first_payloads(alloc: Global, plan: &Plan) -> Result<Vec<u64>, AllocError>
    requires { IsPlan plan.now }
    ensures { IfOk result (λ payloads. ArePayloads plan.now [] payloads.items) }
{
    let mut payloads = Vec::new(alloc);
    for chain in 0..plan.chains() {
        payloads.push(plan.initial(chain))?;
    }
    Ok(payloads)
}

/// Raises the payload of an operation's chain to its value.
fn signal(payloads: &mut [u64], plan: &Plan, op: u32)
    requires plan { IsPlan plan.now }
    requires exists { op < length plan.now.ops }
    requires count { length payloads.old ≡ length plan.now.script.semaphores }
    ensures count { length payloads.new ≡ length plan.now.script.semaphores }
    ensures made { (done signals : List ℕ) → PayloadsWith plan.now done signals payloads.old →
        PayloadsWith plan.now done (signals ++ op ∷ []) payloads.new }
{
    let op = plan.op(op);
    if payloads[op.chain as usize] < op.value {
        payloads[op.chain as usize] = op.value;
    }
}

/// Raises the payloads of chains by all signals of a job.
///
/// Source: Vulkan 1.3, "Semaphore Signaling".
pub(crate) fn signal_all(payloads: &mut [u64], plan: &Plan, j: u32)
    requires plan { IsPlan plan.now }
    requires exists { j < length plan.now.jobs }
    requires count { length payloads.old ≡ length plan.now.script.semaphores }
    ensures { (done : List ℕ) → ArePayloads plan.now done payloads.old →
        ArePayloads plan.now (done ++ j ∷ []) payloads.new }
{
    for op in plan.signals_of(j) {
        signal(payloads, plan, *op);
    }
}
