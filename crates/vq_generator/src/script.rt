//! The script that the program makes itself.
//!
//! Source: this project's own, where an item names no other.
ghost use Rattle.std.specs.Prelude.{◌≡◌, ◌≤◌, IfOk};
ghost use Rattle.vq_model.specs.Canonical.{canonical_text};
ghost use Rattle.vq_generator.specs.Generated.{generated_script};

use crate::declarations::{buffers, queues, timelines};
use crate::rounds::jobs;
use std::alloc::{AllocError, Global};
use vq_model::list::List;
use vq_model::script::Script;
use vq_text::print;

/// The generated script of so many rounds.
fn script(alloc: Global, rounds: u32) -> Result<Script, AllocError>
    requires { rounds ≤ 500 }
    ensures { IfOk result (λ made. made ≡ generated_script rounds) }
{
    let buffers = buffers(
        alloc,
        &["B00", "B01", "B10", "B11", "B20", "B21", "B30", "B31"],
    )?;
    let semaphores = timelines(alloc, &["T0", "T1", "T2", "T3"])?;
    let queues = queues(alloc, &["Q0", "Q1", "Q2", "Q3"])?;
    let jobs = jobs(alloc, rounds)?;
    Ok(Script {
        version: 1,
        buffers,
        semaphores,
        queues,
        jobs,
        scheduled: false,
        turns: List::of(Vec::new(alloc)),
    })
}

/// The text of the generated script of so many rounds, from 1 to 500, which is canonical. In each
/// round each of its four queues waits for the other three to be done with the round before, copies
/// what the next queue wrote in it, and writes one word over the copy. With 500 rounds there are 2000
/// batches, 4000 commands, 2000 signals and 6000 waits. The error is want of memory.
pub fn generate(alloc: Global, rounds: u32) -> Result<Vec<u8>, AllocError>
    requires first { 1 ≤ rounds }
    requires last { rounds ≤ 500 }
    ensures { IfOk result (λ text. text.items ≡ canonical_text (generated_script rounds)) }
{
    print(alloc, &script(alloc, rounds)?)
}
