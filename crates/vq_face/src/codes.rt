//! The codes by which a verdict crosses to C: `c/codes` makes this file out of `c/codes.txt`.
//!
//! Source: this project's own.
ghost use Rattle.std.specs.Prelude.{◌≡◌};
ghost use Rattle.vq_face.specs.Codes.{code_of, line_code, order_code, plan_code};

use crate::ending::Ending;
use vq_model::plan::{OrderFault, PlanFault};
use vq_model::statement::FaultKind;

/// The code of a faulty line.
fn line_code(kind: FaultKind) -> u32
    ensures { result ≡ line_code kind }
{
    match kind {
        FaultKind::Syntax => 16,
        FaultKind::Order => 17,
        FaultKind::Number => 18,
        FaultKind::Name => 19,
        FaultKind::Twice => 20,
        FaultKind::Range => 21,
        FaultKind::Overlap => 22,
        FaultKind::Limit => 23,
    }
}

/// The code of a script without a plan.
fn plan_code(fault: PlanFault) -> u32
    ensures { result ≡ plan_code fault }
{
    match fault {
        PlanFault::NoSignal { .. } => 32,
        PlanFault::SignaledTwice { .. } => 33,
        PlanFault::FenceUsed { .. } => 34,
        PlanFault::Memory => 1,
    }
}

/// The code of a plan that isn't lawful.
fn order_code(fault: OrderFault) -> u32
    ensures { result ≡ order_code fault }
{
    match fault {
        OrderFault::Unreachable { .. } => 48,
        OrderFault::Unordered { .. } => 49,
        OrderFault::FenceBusy { .. } => 50,
        OrderFault::NotPending { .. } => 51,
        OrderFault::Race { .. } => 52,
        OrderFault::Memory => 1,
    }
}

/// The code of an ending.
pub(crate) fn code_of(ending: Ending) -> u32
    ensures { result ≡ code_of ending }
{
    match ending {
        Ending::Lawful => 0,
        Ending::NoMemory => 1,
        Ending::TooLong => 2,
        Ending::FaultyLine { kind, .. } => line_code(kind),
        Ending::NoPlan(fault) => plan_code(fault),
        Ending::Unlawful(fault) => order_code(fault),
    }
}
