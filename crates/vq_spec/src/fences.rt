//! How often each fence was reset so far.
ghost use Rattle.std.specs.Prelude.{◌≡◌, ◌<◌, ◌^◌, ℕ, All, IfOk, Some, length, map};
ghost use Rattle.std.specs.List.{range_with_len};
ghost use Rattle.vq_model.specs.declared.script.HostStep.TheVariants.{FenceReset};
ghost use Rattle.vq_model.specs.declared.script.Mark.{Mark};
ghost use Rattle.vq_spec.specs.Fences.{after_batch, after_naming, after_reset, after_step, fresh};

use std::alloc::{AllocError, Global};
use vq_model::script::{Batch, HostStep};

/// What the jobs so far say of a fence. That of a semaphore stays as it begins.
#[derive(Clone, Copy, Debug, PartialEq, Eq)]
pub(crate) struct FenceState {
    /// Whether it was named since its last effective reset.
    pub(crate) is_named: bool,
    /// How many of its resets were effective: it was named since the one before.
    pub(crate) resets: u64,
}

impl FenceState {
    /// After a batch that names the fence.
    fn after_naming(self) -> FenceState
        ensures { result ≡ after_naming self }
    {
        FenceState {
            is_named: true,
            ..self
        }
    }

    /// After a reset, which is effective only where the fence was named.
    fn after_reset(self) -> FenceState
        requires { self.resets < 2 ^ 32 }
        ensures { result ≡ after_reset self }
    {
        if self.is_named {
            FenceState {
                is_named: false,
                resets: self.resets + 1,
            }
        } else {
            self
        }
    }
}

/// So many fences that no job named.
pub(crate) fn no_fences(alloc: Global, count: usize) -> Result<Vec<FenceState>, AllocError>
    ensures { IfOk result (λ states. states.items ≡ map (λ f. fresh) (range_with_len 0 count)) }
{
    let mut states = Vec::with_capacity(alloc, count)?;
    for _ in 0..count {
        states.push(FenceState {
            is_named: false,
            resets: 0,
        })?;
    }
    Ok(states)
}

/// Takes a batch, which may name a fence.
pub(crate) fn take_batch(states: &mut [FenceState], batch: &Batch)
    requires { (m : Mark) → batch.now.fence ≡ Some m → m.semaphore < length states.old }
    ensures { states.new ≡ after_batch states.old batch.now }
{
    if let Some(fence) = &batch.fence {
        let place = fence.semaphore as usize;
        states[place] = states[place].after_naming();
    }
}

/// Takes a host step, which may reset a fence.
pub(crate) fn take_step(states: &mut [FenceState], step: &HostStep)
    requires exists { (f : ℕ) → step.now ≡ FenceReset f → f < length states.old }
    requires few { All (λ x. x.resets < 2 ^ 32) states.old }
    ensures { states.new ≡ after_step states.old step.now }
{
    if let HostStep::FenceReset(fence) = step {
        let place = *fence as usize;
        states[place] = states[place].after_reset();
    }
}
