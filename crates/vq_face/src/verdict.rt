//! What crosses to C of an ending.
//!
//! Source: this project's own.
ghost use Rattle.std.specs.Prelude.{◌≡◌};
ghost use Rattle.vq_face.specs.Verdicts.{lines_of, order_lines, plan_lines, verdict_of};

use crate::codes::code_of;
use crate::ending::Ending;
use vq_model::plan::{OrderFault, PlanFault};

/// A code, and the lines that it speaks of, counted from 1; 0 where there is none.
#[repr(C)]
#[derive(Clone, Copy)]
pub struct Verdict {
    pub code: u32,
    pub first: u32,
    pub second: u32,
}

/// The lines of a fault of lowering.
fn plan_lines(fault: PlanFault) -> (u32, u32)
    ensures { result ≡ plan_lines fault }
{
    match fault {
        PlanFault::NoSignal { line } => (line, 0),
        PlanFault::SignaledTwice { line } => (line, 0),
        PlanFault::FenceUsed { line } => (line, 0),
        PlanFault::Memory => (0, 0),
    }
}

/// The lines of a fault of the order.
fn order_lines(fault: OrderFault) -> (u32, u32)
    ensures { result ≡ order_lines fault }
{
    match fault {
        OrderFault::Unreachable { line } => (line, 0),
        OrderFault::Unordered { first, second } => (first, second),
        OrderFault::FenceBusy { line } => (line, 0),
        OrderFault::NotPending { line } => (line, 0),
        OrderFault::Race { first, second } => (first, second),
        OrderFault::Memory => (0, 0),
    }
}

/// The lines that an ending speaks of.
fn lines_of(ending: Ending) -> (u32, u32)
    ensures { result ≡ lines_of ending }
{
    match ending {
        Ending::FaultyLine { line, .. } => (line, 0),
        Ending::NoPlan(fault) => plan_lines(fault),
        Ending::Unlawful(fault) => order_lines(fault),
        Ending::Lawful => (0, 0),
        Ending::NoMemory => (0, 0),
        Ending::TooLong => (0, 0),
    }
}

/// The verdict of an ending.
pub fn verdict_of(ending: Ending) -> Verdict
    ensures { result ≡ verdict_of ending }
{
    let (first, second) = lines_of(ending);
    Verdict {
        code: code_of(ending),
        first,
        second,
    }
}
