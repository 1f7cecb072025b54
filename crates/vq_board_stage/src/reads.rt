//! Whether a plan is that of the test of answers.
ghost use Rattle.std.specs.Prelude.{◌≡◌, true};
ghost use Rattle.vq_board_stage.specs.Reads.{IsOfReads};

use crate::host_jobs::{are_single, reads, signals};
use vq_spec::Plan;

/// Whether the plan is that of two reads with a signal between them.
pub fn is_of_reads(plan: &Plan) -> bool
    ensures { result ≡ true → IsOfReads plan.now }
{
    if plan.jobs() != 3 || plan.ops() != 1 || plan.chains() != 1 || !are_single(plan) {
        return false;
    }
    if !reads(plan, 0, 0) || !signals(plan, 1, 0) || !reads(plan, 2, 0) {
        return false;
    }
    plan.initial(0) == 0 && plan.op(0).value == 1
}
