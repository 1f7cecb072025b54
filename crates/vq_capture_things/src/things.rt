//! What is known of each thing that was declared.
ghost use Rattle.std.specs.Prelude.{◌≡◌, ◌<◌, ◌++◌, [], ◌∷◌, ℕ, None, Some, OnOk, reverse, unwrap_or};
ghost use Rattle.std.specs.Option.{option_to_list};
ghost use Rattle.vq_capture.specs.Releases.{binary_releases, event_releases, fence_releases, initial_of, length_of};
ghost use Rattle.vq_capture.specs.Releases.{step_at, value_releases};
ghost use Rattle.vq_capture_things.specs.Facts.{IsRising, first_rise};
ghost use Rattle.vq_capture_things.specs.Lookups.{has, has_pair, items_at};
ghost use Rattle.vq_capture_things.specs.PastLists.{past_steps};

use crate::kept::Kept;
use crate::past_steps::PastSteps;
use std::alloc::{AllocError, Global};
use std::snapshot::Snapshot;
use vq_capture::capture::Step;

/// What the steps of the lines above leave for later ones, by the lines of declarations.
#[derive(Drop)]
pub struct Things {
    pub(crate) kept: Kept,
    last: u64,
    past: Snapshot<PastSteps>,
    ghost initial: { (t : ℕ) → unwrap_or (has kept.initials t) 0 ≡ initial_of (past_steps past.value) t },
    ghost units: { (r : ℕ) → unwrap_or (has kept.lengths r) 0 ≡ length_of (past_steps past.value) r },
    ghost rising: { (t : ℕ) → IsRising (items_at kept.rises t) },
    ghost value: { (t v : ℕ) → first_rise v (items_at kept.rises t) ≡ value_releases (past_steps past.value) t v },
    ghost binary: { (s : ℕ) → reverse (items_at kept.signals s) ≡ binary_releases (past_steps past.value) s },
    ghost fence: { (f : ℕ) → option_to_list (has kept.fences f) ≡ fence_releases (past_steps past.value) f },
    ghost event: { (e q : ℕ) → option_to_list (has_pair kept.events e q)
        ≡ event_releases (past_steps past.value) e (Some q) },
    ghost above: { (n : ℕ) → last < n → step_at (past_steps past.value) n ≡ None },
}

/// No steps, as clauses see them.
fn no_past() -> Snapshot<PastSteps>
    ensures { past_steps result.value ≡ [] }
{
    Snapshot::of(&PastSteps::NoSteps)
}

impl Things {
    ghost use Rattle.vq_capture_things.specs.Steps.{steps_of};

    /// What no steps leave.
    pub fn new(alloc: Global) -> Things
        ensures { steps_of result ≡ [] }
    {
        Things {
            kept: Kept::new(alloc),
            last: 0,
            past: no_past(),
        }
    }

    /// Adds a step. The error is want of memory, or that its line isn't behind those of the steps before; the steps are
    /// then as they were.
    pub fn add(&mut self, alloc: Global, step: Step) -> Result<(), AllocError>
        ensures { OnOk result (steps_of self.new ≡ steps_of self.old ++ step ∷ []) }
    {
        if step.line <= self.last {
            return Err(AllocError);
        }
        self.kept.note(alloc, step)?;
        self.last = step.line;
        let before = std::mem::replace(&mut self.past, no_past());
        self.past = Snapshot::of(&PastSteps::More { before, step });
        Ok(())
    }
}
