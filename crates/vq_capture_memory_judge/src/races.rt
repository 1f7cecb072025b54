//! The verdict on a text that was read whole, without memory and with it.
ghost use Rattle.std.specs.Prelude.{◌≡◌, IfOk, Some, None};
ghost use Rattle.vq_capture.specs.declared.capture.Verdict.TheVariants.{Race};
ghost use Rattle.vq_capture_judge.specs.Judging.{judged_text};
ghost use Rattle.vq_capture_memory_judge.specs.MemoryJudging.{combined, memory_judged};
ghost use Rattle.vq_capture_memory_judge.specs.ToldSteps.{lacking_in};

use crate::reading::read_steps;
use crate::search::first_lacking;
use std::alloc::{AllocError, Global};
use vq_capture::capture::Verdict;
use vq_capture_judge::feed::{Fed, feed};
use vq_capture_judge::line_judge::Judge;
use vq_capture_memory::verdict::MemoryVerdict;

/// The verdict on a text without memory.
fn ordinary(alloc: Global, text: &[u8]) -> Result<Verdict, AllocError>
    ensures { IfOk result (λ verdict. verdict ≡ judged_text text.now) }
{
    let mut judge = Judge::new(alloc);
    match feed(alloc, &mut judge, text)? {
        Fed::Says(verdict) => Ok(verdict),
        Fed::Left(_) => Ok(Verdict::Ordered),
    }
}

/// The first step of a text that lacks a write.
fn lacking_in(alloc: Global, text: &[u8]) -> Result<Option<(u64, u64)>, AllocError>
    ensures { IfOk result (λ pair. pair ≡ lacking_in text.now) }
{
    let steps = read_steps(alloc, text)?;
    first_lacking(alloc, &steps)
}

fn unseen_or(first: u64, second: u64, unseen: (u64, u64)) -> MemoryVerdict
    ensures { result ≡ combined (Race first second) (Some unseen) }
{
    if unseen.1 < second {
        MemoryVerdict::NotSeen {
            first: unseen.0,
            second: unseen.1,
        }
    } else {
        MemoryVerdict::Racing { first, second }
    }
}

fn with_unseen(verdict: Verdict, unseen: (u64, u64)) -> MemoryVerdict
    ensures { result ≡ combined verdict (Some unseen) }
{
    match verdict {
        Verdict::Race { first, second } => unseen_or(first, second, unseen),
        _ => MemoryVerdict::NotSeen {
            first: unseen.0,
            second: unseen.1,
        },
    }
}

fn without_unseen(verdict: Verdict) -> MemoryVerdict
    ensures { result ≡ combined verdict None }
{
    match verdict {
        Verdict::Race { first, second } => MemoryVerdict::Racing { first, second },
        Verdict::Faulty { fault } => MemoryVerdict::Refused { fault },
        Verdict::Ordered => MemoryVerdict::AllSeen,
    }
}

/// What comes first of a verdict without memory and of a step that lacks a write.
fn combined(verdict: Verdict, unseen: Option<(u64, u64)>) -> MemoryVerdict
    ensures { result ≡ combined verdict unseen }
{
    match unseen {
        Some(unseen) => with_unseen(verdict, unseen),
        None => without_unseen(verdict),
    }
}

/// The verdict on a text with memory.
pub fn memory_judged(alloc: Global, text: &[u8]) -> Result<MemoryVerdict, AllocError>
    ensures { IfOk result (λ verdict. verdict ≡ memory_judged text.now) }
{
    let verdict = ordinary(alloc, text)?;
    let unseen = lacking_in(alloc, text)?;
    Ok(combined(verdict, unseen))
}
