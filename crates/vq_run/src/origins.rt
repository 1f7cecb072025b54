//! Faults and answers, by the lines of the input from which a script's lines come.
ghost use Rattle.std.specs.Prelude.{◌≡◌, map};
ghost use Rattle.vq_run.specs.Origins.{answer_origin, order_fault_origin, origin, plan_fault_origin};

use vq_model::list::List;
use vq_model::plan::{AnswerLine, OrderFault, PlanFault};

/// The line of the input from which a line of the script comes: the same one, or the one of a list.
fn origin(from: &Option<List<u32>>, line: u32) -> u32
    ensures { result ≡ origin from.now line }
{
    let Some(lines) = from else {
        return line;
    };
    let place = line.saturating_sub(1);
    match lines.as_slice().get(place as usize) {
        Some(found) => *found,
        None => 0,
    }
}

/// Why a script has no plan, by the lines of the input.
pub(crate) fn plan_fault_origin(from: &Option<List<u32>>, fault: PlanFault) -> PlanFault
    ensures { result ≡ plan_fault_origin from.now fault }
{
    match fault {
        PlanFault::NoSignal { line } => PlanFault::NoSignal {
            line: origin(from, line),
        },
        PlanFault::SignaledTwice { line } => PlanFault::SignaledTwice {
            line: origin(from, line),
        },
        PlanFault::FenceUsed { line } => PlanFault::FenceUsed {
            line: origin(from, line),
        },
        PlanFault::Memory => PlanFault::Memory,
    }
}

/// Why a plan isn't lawful, by the lines of the input.
pub(crate) fn order_fault_origin(from: &Option<List<u32>>, fault: OrderFault) -> OrderFault
    ensures { result ≡ order_fault_origin from.now fault }
{
    match fault {
        OrderFault::Unreachable { line } => OrderFault::Unreachable {
            line: origin(from, line),
        },
        OrderFault::Unordered { first, second } => OrderFault::Unordered {
            first: origin(from, first),
            second: origin(from, second),
        },
        OrderFault::FenceBusy { line } => OrderFault::FenceBusy {
            line: origin(from, line),
        },
        OrderFault::NotPending { line } => OrderFault::NotPending {
            line: origin(from, line),
        },
        OrderFault::Race { first, second } => OrderFault::Race {
            first: origin(from, first),
            second: origin(from, second),
        },
        OrderFault::Memory => OrderFault::Memory,
    }
}

/// Gives answers the lines of the input.
pub(crate) fn name_origins(from: &Option<List<u32>>, answers: &mut Vec<AnswerLine>)
    ensures { answers.new.items ≡ map (answer_origin from.now) answers.old.items }
{
    for answer in answers.iter_mut() {
        answer.line = origin(from, answer.line);
    }
}
