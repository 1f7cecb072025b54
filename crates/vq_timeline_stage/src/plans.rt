//! Whether a plan is that of the tests' script.
ghost use Rattle.std.specs.Prelude.{◌≡◌, ◌<◌, length, true, None, Some};
ghost use Rattle.vq_model.specs.Plan.{previous};
ghost use Rattle.vq_timeline_stage.specs.TwoBatches.{HasSignals, IsOfTwoBatches};

use vq_board_stage::three_signals::{has_batch, is_signal, waits_for_nothing};
use vq_spec::Plan;

/// Whether the first two jobs come one after the other, and the first one first.
fn follow(plan: &Plan) -> bool
    requires { 1 < length plan.now.jobs }
    ensures first { result ≡ true → previous plan.now 0 ≡ None }
    ensures second { result ≡ true → previous plan.now 1 ≡ Some 0 }
{
    plan.job(0).previous.is_none() && plan.job(1).previous == Some(0)
}

/// Whether the signals are those of the script.
fn has_signals(plan: &Plan) -> bool
    ensures { result ≡ true → HasSignals plan.now }
{
    if plan.ops() != 2
        || plan.chains() != 1
        || !is_signal(plan, 0, 0, 0)
        || !is_signal(plan, 1, 0, 1)
    {
        return false;
    }
    plan.chain(0) == [0u32, 1].as_slice()
        && plan.initial(0) == 0
        && plan.resolver(0, 2) == Some(0)
        && plan.resolver(0, 3) == Some(1)
}

/// Whether the plan is that of two batches that signal one timeline.
pub fn is_of_two_batches(plan: &Plan) -> bool
    ensures { result ≡ true → IsOfTwoBatches plan.now }
{
    if !has_batch(plan, 0, 0, &[], &[0]) || !has_batch(plan, 1, 0, &[], &[1]) || !follow(plan) {
        return false;
    }
    waits_for_nothing(plan, 0) && waits_for_nothing(plan, 1) && has_signals(plan)
}
