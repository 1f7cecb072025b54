//! What mends a fault, in a sentence.
//!
//! Source: this project's own.
ghost use Rattle.std.specs.Prelude.{◌≡◌};
ghost use Rattle.vq_messages.specs.Mends.{mend_of_line, mend_of_order, mend_of_plan, mend_of_size};

use vq_model::plan::{OrderFault, PlanFault};
use vq_model::statement::FaultKind;

/// What mends an input above the limit.
pub fn mend_of_size() -> &'static str
    ensures { result.now ≡ mend_of_size }
{
    "shorten comments and blanks, or cut the script in two\n"
}

/// What mends a faulty line.
pub fn mend_of_line(kind: FaultKind) -> &'static str
    ensures { result.now ≡ mend_of_line kind }
{
    match kind {
        FaultKind::Syntax => "compare the line with the forms of lines\n",
        FaultKind::Order => "move the line up\n",
        FaultKind::Number => "write a decimal number, or 0x and hexadecimal digits\n",
        FaultKind::Name => "declare the name above, or correct it\n",
        FaultKind::Twice => "choose another name\n",
        FaultKind::Range => "count the bytes of the buffer and of the command\n",
        FaultKind::Overlap => "copy through another buffer\n",
        FaultKind::Limit => "keep to the limits, or cut the script in two\n",
    }
}

/// What mends a script without a plan; nothing for want of memory.
pub fn mend_of_plan(fault: PlanFault) -> &'static str
    ensures { result.now ≡ mend_of_plan fault }
{
    match fault {
        PlanFault::NoSignal { .. } => "submit the batch that signals it first, or use a timeline\n",
        PlanFault::SignaledTwice { .. } => {
            "let a batch wait for it in between, or use two semaphores\n"
        }
        PlanFault::FenceUsed { .. } => "wait for the fence and reset it before the second batch\n",
        PlanFault::Memory => "",
    }
}

/// What mends a plan that isn't lawful; nothing for want of memory.
pub fn mend_of_order(fault: OrderFault) -> &'static str
    ensures { result.now ≡ mend_of_order fault }
{
    match fault {
        OrderFault::Unreachable { .. } => {
            "let another queue or the host signal that value, wait for less, or break the ring of waits\n"
        }
        OrderFault::Unordered { .. } => {
            "let the batch of the greater value wait for the smaller one\n"
        }
        OrderFault::FenceBusy { .. } => "let the host wait for the fence before it resets it\n",
        OrderFault::NotPending { .. } => {
            "let the host wait for the signal before the batch, or make the queue deferred or threaded\n"
        }
        OrderFault::Race { .. } => {
            "let the first batch signal a timeline, and the second one wait for that value\n"
        }
        OrderFault::Memory => "",
    }
}
