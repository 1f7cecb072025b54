//! One pass down the lines of a capture, which keeps of clocks what lines to come ask of them.
ghost use Rattle.std.specs.Prelude.{◌≡◌, IfOk, true};
ghost use Rattle.vq_capture_check.specs.Alike.{AreAlike};
ghost use Rattle.vq_capture_check.specs.Watches.{gone_in, watched_of as kept_by};
ghost use Rattle.vq_capture_check.specs.Watching.{nothing_watched, watch_with};
ghost use Rattle.vq_capture_pruning.specs.PastWatches.{past_watched};

use crate::past_told::PastTold;
use std::alloc::{AllocError, Global};
use std::snapshot::Snapshot;
use vq_capture_check::{Told, Watch};

/// One pass down the lines of a capture. What it keeps tells the same of all lines to come as what its steps left; what
/// they ask no more is left out now and then. After a race and after an `Err` it takes no more steps.
#[derive(Drop)]
pub struct PruningWatch {
    watch: Watch,
    next: u64,
    goes: bool,
    past: Snapshot<PastTold>,
    ghost alike: { goes ≡ true → AreAlike next (gone_in watch) (past_watched past.value) (kept_by watch) },
}

/// No steps, as clauses see them.
fn no_past() -> Snapshot<PastTold>
    ensures { past_watched result.value ≡ nothing_watched }
{
    Snapshot::of(&PastTold::NothingTold)
}

/// Some steps and one more, as clauses see them.
fn past_with(before: Snapshot<PastTold>, b: &Told) -> Snapshot<PastTold>
    ensures { past_watched result.value ≡ watch_with (past_watched before.value) b.now }
{
    let told = Snapshot::of(b);
    Snapshot::of(&PastTold::More { before, told })
}

impl PruningWatch {
    ghost use Rattle.vq_capture_check.specs.Watching.{race_line};
    ghost use Rattle.vq_capture_pruning.specs.PruningWatches.{watched_of};
    ghost use Rattle.std.specs.Prelude.{None};

    /// A watch that saw no steps.
    pub fn new(alloc: Global) -> PruningWatch
        ensures { watched_of result ≡ nothing_watched }
    {
        PruningWatch {
            watch: Watch::new(alloc),
            next: 0,
            goes: true,
            past: no_past(),
        }
    }

    /// The greatest line that races with the next step, if there is one; if there is none, the step is added. The error
    /// is want of memory, or that its line isn't above those of the steps before, or is 2^64 - 1, or that it is of a
    /// queue or a thread that a step before has forgotten: of one whose name has ended no line of a capture is.
    pub fn take(&mut self, b: &Told) -> Result<Option<u64>, AllocError>
        ensures race { IfOk result (λ line. line ≡ race_line (watched_of self.old) b.now) }
        ensures next { IfOk result (λ line. line ≡ None →
            watched_of self.new ≡ watch_with (watched_of self.old) b.now) }
    {
        let line = b.as_step().line;
        if !self.goes || line < self.next {
            return Err(AllocError);
        }
        let Some(next) = line.checked_add(1) else {
            return Err(AllocError);
        };
        self.goes = false;
        if let Some(first) = self.watch.take(b)? {
            return Ok(Some(first));
        }
        self.watch.prune_if_due(next)?;
        let before = std::mem::replace(&mut self.past, no_past());
        self.past = past_with(before, b);
        self.next = next;
        self.goes = true;
        Ok(None)
    }
}
