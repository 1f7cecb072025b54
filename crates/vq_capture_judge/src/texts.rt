//! The texts of verdicts.
ghost use Rattle.std.specs.Prelude.{◌≡◌, ◌++◌, IfOk, codes};
ghost use Rattle.vq_capture_judge.specs.Judging.{kind_words, verdict_text};
ghost use Rattle.std.specs.Fmt.{decimal};
ghost use Rattle.vq_capture.specs.declared.capture.Verdict.TheVariants.{Faulty, Ordered, Race};

use std::alloc::{AllocError, Global};
use vq_capture::capture::{Fault, FaultKind, Verdict};

fn kind_words(kind: FaultKind) -> &'static str
    ensures { result.now ≡ kind_words kind }
{
    match kind {
        FaultKind::Syntax => "syntax",
        FaultKind::Order => "order",
        FaultKind::Number => "number",
        FaultKind::Stages => "stages",
        FaultKind::Name => "name",
        FaultKind::Twice => "twice",
        FaultKind::Range => "range",
        FaultKind::NoSignal => "no signal",
    }
}

fn ordered_text(alloc: Global) -> Result<Vec<u8>, AllocError>
    ensures { IfOk result (λ text. text.items ≡ verdict_text Ordered) }
{
    Vec::from_slice(alloc, b"ordered\n")
}

fn first_part(alloc: Global, first: u64) -> Result<Vec<u8>, AllocError>
    ensures { IfOk result (λ text. text.items ≡ codes "race: lines " ++ decimal first) }
{
    let text = format!(in alloc; "race: lines {first}")?;
    Ok(text.into_bytes())
}

fn second_part(alloc: Global, second: u64) -> Result<Vec<u8>, AllocError>
    ensures { IfOk result (λ text. text.items ≡ codes " and " ++ decimal second ++ codes "\n") }
{
    let text = format!(in alloc; " and {second}\n")?;
    Ok(text.into_bytes())
}

fn race_text(alloc: Global, first: u64, second: u64) -> Result<Vec<u8>, AllocError>
    ensures { IfOk result (λ text. text.items ≡ verdict_text (Race first second)) }
{
    let mut text = first_part(alloc, first)?;
    let end = second_part(alloc, second)?;
    text.extend_from_slice(&end)?;
    Ok(text)
}

fn fault_text(alloc: Global, fault: Fault) -> Result<Vec<u8>, AllocError>
    ensures { IfOk result (λ text. text.items ≡ verdict_text (Faulty fault)) }
{
    let kind = kind_words(fault.kind);
    let line = fault.line;
    let text = format!(in alloc; "error: {kind}: line {line}\n")?;
    Ok(text.into_bytes())
}

/// The line that says a verdict. The error is want of memory.
pub fn verdict_text(alloc: Global, verdict: Verdict) -> Result<Vec<u8>, AllocError>
    ensures { IfOk result (λ text. text.items ≡ verdict_text verdict) }
{
    match verdict {
        Verdict::Ordered => ordered_text(alloc),
        Verdict::Race { first, second } => race_text(alloc, first, second),
        Verdict::Faulty { fault } => fault_text(alloc, fault),
    }
}
