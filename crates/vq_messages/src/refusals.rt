//! The texts that refuse an input.
//!
//! Source: this project's own.
ghost use Rattle.std.specs.Prelude.{◌≡◌, IfOk};
ghost use Rattle.vq_model.specs.Refusals.{at_line, at_lines, line_refusal};
ghost use Rattle.vq_messages.specs.Refused.{RefusesOrder, RefusesPlan, no_trace, trace_refusal};

use std::alloc::{AllocError, Global};
use vq_model::plan::{OrderFault, PlanFault};
use vq_model::statement::FaultKind;

/// The text that refuses a faulty line. The error is want of memory.
pub fn line_refusal(alloc: Global, line: u32, kind: FaultKind) -> Result<Vec<u8>, AllocError>
    ensures { IfOk result (λ text. text.items ≡ line_refusal line kind) }
{
    let text = format!(in alloc; "error: {kind}: line {line}\n")?;
    Ok(text.into_bytes())
}

/// The text that refuses a script without a plan. The error is want of memory, here or in the fault.
pub fn plan_refusal(alloc: Global, fault: PlanFault) -> Result<Vec<u8>, AllocError>
    ensures { IfOk result (λ text. RefusesPlan fault text.items) }
{
    let text = match fault {
        PlanFault::NoSignal { line } => format!(in alloc; "error: no signal: line {line}\n")?,
        PlanFault::SignaledTwice { line } => {
            format!(in alloc; "error: signaled twice: line {line}\n")?
        }
        PlanFault::FenceUsed { line } => format!(in alloc; "error: fence used: line {line}\n")?,
        PlanFault::Memory => return Err(AllocError),
    };
    Ok(text.into_bytes())
}

/// The text that refuses a plan for a fault at one line.
fn at_line(alloc: Global, fault: &str, line: u32) -> Result<Vec<u8>, AllocError>
    ensures { IfOk result (λ text. text.items ≡ at_line fault.now line) }
{
    let text = format!(in alloc; "error: {fault}: line {line}\n")?;
    Ok(text.into_bytes())
}

/// The text that refuses a plan for a fault at two lines.
fn at_lines(alloc: Global, fault: &str, first: u32, second: u32) -> Result<Vec<u8>, AllocError>
    ensures { IfOk result (λ text. text.items ≡ at_lines fault.now first second) }
{
    let text = format!(in alloc; "error: {fault}: lines {first} and {second}\n")?;
    Ok(text.into_bytes())
}

/// The text that refuses a plan that isn't lawful. The error is want of memory, here or in the fault.
pub fn order_refusal(alloc: Global, fault: OrderFault) -> Result<Vec<u8>, AllocError>
    ensures { IfOk result (λ text. RefusesOrder fault text.items) }
{
    match fault {
        OrderFault::Unreachable { line } => at_line(alloc, "unreachable", line),
        OrderFault::Unordered { first, second } => at_lines(alloc, "unordered", first, second),
        OrderFault::FenceBusy { line } => at_line(alloc, "fence busy", line),
        OrderFault::NotPending { line } => at_line(alloc, "not pending", line),
        OrderFault::Race { first, second } => at_lines(alloc, "race", first, second),
        OrderFault::Memory => Err(AllocError),
    }
}

/// The text that refuses an input without a trace. The error is want of memory.
pub fn no_trace_refusal(alloc: Global) -> Result<Vec<u8>, AllocError>
    ensures { IfOk result (λ text. text.items ≡ no_trace) }
{
    Vec::from_slice(alloc, b"error: no trace\n")
}

/// The text that refuses a trace with a faulty line. The error is want of memory.
pub fn trace_refusal(alloc: Global, line: u32) -> Result<Vec<u8>, AllocError>
    ensures { IfOk result (λ text. text.items ≡ trace_refusal line) }
{
    at_line(alloc, "trace", line)
}
