//! Whether needs are reached.
ghost use Rattle.std.specs.Prelude.{◌≡◌, ◌<◌, length, All, if◌then◌else◌};
ghost use Rattle.std.specs.List.{list_all, list_any};
ghost use Rattle.vq_model.specs.Machine.{is_reached};
ghost use Rattle.vq_spec.specs.SlowProgress.{payload_in};

use vq_model::plan::{Need, PlanJob};

/// Whether the payload of a need's chain is its value or greater.
///
/// Source: Vulkan 1.3, "Semaphore Waiting".
pub fn is_reached(payloads: &[u64], need: Need) -> bool
    requires { need.chain < length payloads.now }
    ensures { result ≡ is_reached (payload_in payloads.now) need }
{
    need.value <= payloads[need.chain as usize]
}

/// Whether all of some needs are reached.
///
/// Source: Vulkan 1.3, vkWaitSemaphores.
pub fn all_reached(payloads: &[u64], needs: &[Need]) -> bool
    requires { All (λ n. n.chain < length payloads.now) needs.now }
    ensures { result ≡ list_all (is_reached (payload_in payloads.now)) needs.now }
{
    for need in needs {
        if !is_reached(payloads, *need) {
            return false;
        }
    }
    true
}

/// Whether one of some needs is reached.
///
/// Source: Vulkan 1.3, vkWaitSemaphores.
pub fn any_reached(payloads: &[u64], needs: &[Need]) -> bool
    requires { All (λ n. n.chain < length payloads.now) needs.now }
    ensures { result ≡ list_any (is_reached (payload_in payloads.now)) needs.now }
{
    for need in needs {
        if is_reached(payloads, *need) {
            return true;
        }
    }
    false
}

/// Whether what a job waits for is reached: all its needs, or one of them where it waits for any.
pub(crate) fn needs_reached(payloads: &[u64], job: &PlanJob) -> bool
    requires { All (λ n. n.chain < length payloads.now) job.now.needs }
    ensures { result
        ≡ (if job.now.any then list_any (is_reached (payload_in payloads.now)) job.now.needs
        else list_all (is_reached (payload_in payloads.now)) job.now.needs) }
{
    if job.any {
        any_reached(payloads, job.needs.as_slice())
    } else {
        all_reached(payloads, job.needs.as_slice())
    }
}
