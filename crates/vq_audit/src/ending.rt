//! What the end of a trace says, and what it has to say.
ghost use Rattle.std.specs.Prelude.{◌≡◌, ◌↔◌, ◌++◌, IsTrue, IfOk};
ghost use Rattle.vq_model.specs.OutputText.{answers_of, buffers_text};
ghost use Rattle.vq_model.specs.SlowRun.{bytes_after};
ghost use Rattle.vq_model.specs.Text.{lines_of};
ghost use Rattle.vq_core.specs.CoreState.{world};
ghost use Rattle.vq_core.specs.Tables.{jobs_left};
ghost use Rattle.vq_audit.specs.Verdicts.{SaysLeft, lines_left};

use std::alloc::{AllocError, Global};
use vq_core::{AnswerRoom, Core};
use vq_given::given::GivenTrace;
use vq_spec::{answer_text, push_buffers};

/// Whether the line at the end of a trace says that so many jobs are left.
pub(crate) fn says_left(given: &GivenTrace, left: u32) -> bool
    ensures { IsTrue result ↔ SaysLeft given.now.finished given.now.left left }
{
    if left == 0 {
        return given.finished;
    }
    if given.finished {
        return false;
    }
    given.left == left
}

/// The answers of a core's history, and the buffers that it leaves. The error is want of memory.
fn finished_text(alloc: Global, core: &Core) -> Result<Vec<u8>, AllocError>
    ensures { IfOk result (λ text. text.items ≡ answers_of core.now.plan (world core.now).machine
        ++ buffers_text core.now.plan.script.buffers
        (bytes_after core.now.plan (world core.now).machine.progress.applied)) }
{
    let room = AnswerRoom::new(alloc, core.ordered().plan())?;
    let lines = room.fill(core);
    let mut text = answer_text(alloc, lines.as_slice())?;
    push_buffers(&mut text, core.ordered().plan(), core.buffers())?;
    Ok(text)
}

/// The text whose lines follow the end of a trace with a core's history: where no job is left, that of the answers and
/// the buffers, and else an empty one. The error is want of memory.
pub(crate) fn text_behind(alloc: Global, core: &Core) -> Result<Vec<u8>, AllocError>
    ensures { IfOk result (λ text. lines_of text.items ≡ lines_left core.now.plan (world core.now).machine
        (jobs_left core.now.plan (world core.now).machine.progress.finished)) }
{
    if core.left() == 0 {
        finished_text(alloc, core)
    } else {
        Ok(Vec::new(alloc))
    }
}
