//! An input with a trace behind its script.
ghost use Rattle.std.specs.Prelude.{◌≡◌, ◌≤◌, IfOk, MatchOption, length};
ghost use Rattle.vq_given.specs.Cutting.{IsUncut};
ghost use Rattle.vq_messages.specs.Refused.{input_limit};
ghost use Rattle.vq_run.specs.Traced.{AnswersTrace, verdict_text};
ghost use Rattle.vq_run.specs.Inputs.{IsScriptText, LacksTrace};

use crate::outcome::Reply;
use crate::task::row_of;
use std::alloc::{AllocError, Global};
use vq_audit::{Verdict, audit};
use vq_given::given::{Cut, TraceFault};
use vq_messages::trace_refusal;
use vq_order::Ordered;
use vq_trace::{cut, read_trace};
use vq_words::Task;

/// The text that a task reads as a script: the whole input, or, where a trace follows the script, what stands before
/// the line that cuts the input. None where there is no such line.
#[tactic(auto, using(crate::proofs::TraceParts::whole_script, crate::proofs::TraceParts::script_before, crate::proofs::TraceParts::script_within))]
pub(crate) fn script_text(task: Task, input: &[u8]) -> Option<&[u8]>
    requires { length input.now ≤ input_limit }
    ensures { MatchOption result (LacksTrace task input.now)
        (λ text. IsScriptText task input.now text.now × (length text.now ≤ input_limit)) }
{
    if !row_of(task).reads_trace {
        return Some(input);
    }
    match cut(input) {
        Some(Cut { script_end, .. }) => Some(&input[..script_end]),
        None => None,
    }
}

/// The text of a verdict. The error is want of memory.
fn verdict_text(alloc: Global, verdict: Verdict) -> Result<Vec<u8>, AllocError>
    ensures { IfOk result (λ text. text.items ≡ verdict_text verdict) }
{
    match verdict {
        Verdict::Lawful => Vec::from_slice(alloc, b"lawful\n"),
        Verdict::Broken { line } => {
            let text = format!(in alloc; "broken: line {line}\n")?;
            Ok(text.into_bytes())
        }
    }
}

/// What comes of the trace behind the line that cuts an input: the verdict on it, or the refusal of its first faulty
/// line. The error is want of memory.
#[tactic(auto, using(crate::proofs::TraceParts::trace_within))]
pub(crate) fn trace_outcome(
    alloc: Global,
    ordered: Ordered,
    input: &[u8],
) -> Result<Reply, AllocError>
    requires short { length input.now ≤ input_limit }
    requires cut { ¬ IsUncut input.now }
    ensures { IfOk result (λ outcome. AnswersTrace input.now ordered outcome.status outcome.text.items) }
{
    let Some(
        Cut {
            trace_start,
            first,
            ..
        },
    ) = cut(input)
    else {
        unreachable!();
    };
    match read_trace(alloc, ordered.plan(), &input[trace_start..], first) {
        Ok(given) => {
            let verdict = audit(alloc, ordered, &given)?;
            Ok(Reply::done(verdict_text(alloc, verdict)?))
        }
        Err(TraceFault::At { line }) => Ok(Reply::refused(trace_refusal(alloc, line)?)),
        Err(TraceFault::Memory) => Err(AllocError),
    }
}
