//! The texts of verdicts with memory.
ghost use Rattle.std.specs.Prelude.{◌≡◌, ◌++◌, IfOk, codes};
ghost use Rattle.std.specs.Fmt.{decimal};
ghost use Rattle.vq_capture_memory.specs.declared.verdict.MemoryVerdict.TheVariants.{NotSeen};
ghost use Rattle.vq_capture_memory_judge.specs.MemoryJudging.{memory_text};

use std::alloc::{AllocError, Global};
use vq_capture::capture::Verdict;
use vq_capture_judge::texts::verdict_text;
use vq_capture_memory::verdict::MemoryVerdict;

fn first_part(alloc: Global, first: u64) -> Result<Vec<u8>, AllocError>
    ensures { IfOk result (λ text. text.items ≡ codes "unseen: lines " ++ decimal first) }
{
    let text = format!(in alloc; "unseen: lines {first}")?;
    Ok(text.into_bytes())
}

fn second_part(alloc: Global, second: u64) -> Result<Vec<u8>, AllocError>
    ensures { IfOk result (λ text. text.items ≡ codes " and " ++ decimal second ++ codes "\n") }
{
    let text = format!(in alloc; " and {second}\n")?;
    Ok(text.into_bytes())
}

fn unseen_text(alloc: Global, first: u64, second: u64) -> Result<Vec<u8>, AllocError>
    ensures { IfOk result (λ text. text.items ≡ memory_text (NotSeen first second)) }
{
    let mut text = first_part(alloc, first)?;
    let end = second_part(alloc, second)?;
    text.extend_from_slice(&end)?;
    Ok(text)
}

/// The line that says a verdict. The error is want of memory.
pub fn memory_text(alloc: Global, verdict: MemoryVerdict) -> Result<Vec<u8>, AllocError>
    ensures { IfOk result (λ text. text.items ≡ memory_text verdict) }
{
    match verdict {
        MemoryVerdict::AllSeen => verdict_text(alloc, Verdict::Ordered),
        MemoryVerdict::Racing { first, second } => {
            verdict_text(alloc, Verdict::Race { first, second })
        }
        MemoryVerdict::NotSeen { first, second } => unseen_text(alloc, first, second),
        MemoryVerdict::Refused { fault } => verdict_text(alloc, Verdict::Faulty { fault }),
    }
}
