//! The write that some step doesn't see, of the steps of a text.
ghost use Rattle.std.specs.Prelude.{◌≡◌, [], IfOk};
ghost use Rattle.vq_capture_memory_judge.specs.ToldSteps.{first_lacking, told_of};

use std::alloc::{AllocError, Global};
use vq_capture_reader::Added;
use vq_capture_seen::watch::SeenWatch;

/// The first step that lacks a write, behind the last line of such a write. The error is want of memory.
pub fn first_lacking(alloc: Global, steps: &[Added]) -> Result<Option<(u64, u64)>, AllocError>
    ensures { IfOk result (λ pair. pair ≡ first_lacking [] (told_of steps.now)) }
{
    let mut watch = SeenWatch::new(alloc);
    for added in steps {
        if let Some(first) = watch.unseen_line(alloc, &added.step, &added.released)? {
            return Ok(Some((first, added.step.line)));
        }
        watch.add(alloc, &added.step, &added.released)?;
    }
    Ok(None)
}
