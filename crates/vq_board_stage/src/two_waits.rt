//! Whether a plan is that of the test of a batch with two waits.
ghost use Rattle.std.specs.Prelude.{◌≡◌, ◌<◌, length, [], true, Some};
ghost use Rattle.vq_model.specs.Plan.{resolver};
ghost use Rattle.vq_board_laws.specs.declared.view.Role.TheVariants.{Host as OfHost};
ghost use Rattle.vq_board_stage.specs.ThreeSignals.{HasBatch};
ghost use Rattle.vq_board_stage.specs.TwoWaits.{WaitsForBoth, IsOfTwoWaits};

use crate::host_jobs::{are_single, signals};
use crate::three_signals::{begins, is_batch};
use vq_spec::{Need, Plan};

/// Whether the operation resolves the wait.
fn is_resolved(plan: &Plan, need: &Need, op: u32) -> bool
    ensures { result ≡ true → resolver plan.now need.now.chain need.now.value ≡ Some op }
{
    need.chain < plan.chains() && plan.resolver(need.chain, need.value) == Some(op)
}

/// Whether job j has two waits, which the operations 0 and 1 resolve.
fn waits_for_both(plan: &Plan, j: u32) -> bool
    requires { j < length plan.now.jobs }
    ensures { result ≡ true → WaitsForBoth plan.now j }
{
    match plan.job(j).needs.as_slice() {
        [first, second] => is_resolved(plan, first, 0) && is_resolved(plan, second, 1),
        _ => false,
    }
}

/// Whether job j is a batch of the first queue that has nothing to make, and that the host hands on.
fn is_handed_on(plan: &Plan, j: u32) -> bool
    requires { j < length plan.now.jobs }
    ensures { result ≡ true → HasBatch plan.now j 0 OfHost [] [] }
{
    !plan.script().is_threaded(0) && is_batch(plan.job(j), 0, &[], &[])
}

/// Whether the plan is that of two host signals and a batch that waits for both.
pub fn is_of_two_waits(plan: &Plan) -> bool
    ensures { result ≡ true → IsOfTwoWaits plan.now }
{
    if plan.jobs() != 3 || !are_single(plan) || !signals(plan, 0, 0) || !signals(plan, 1, 1) {
        return false;
    }
    is_handed_on(plan, 2) && begins(plan, 2) && waits_for_both(plan, 2)
}
