//! Rows of batches, again and again.
ghost use Rattle.vq_board_bench.specs.Rows.{IsRow};

use crate::batches::opened_row;
use crate::kind::{Form, Phase};
use crate::row::{is_row, row_text};
use std::alloc::Global;
use vq_board_stage::plans::checked;
use vq_order::Ordered;

/// A row of so many batches, and how far it is taken.
#[derive(Clone, Copy)]
pub(crate) struct Row {
    pub(crate) form: Form,
    pub(crate) last: Phase,
    pub(crate) batches: u32,
}

impl Row {
    /// How many of the batches have a command.
    fn commands(&self) -> u32 {
        if self.form.command { self.batches } else { 0 }
    }

    /// How many of them have a signal.
    fn signals(&self) -> u32 {
        if self.form.signal { self.batches } else { 0 }
    }

    /// Opens a board of the row, and takes the batches through the kinds of step.
    fn once(&self, alloc: Global, ordered: &Ordered, commands: u32, signals: u32) -> Option<bool>
        requires { IsRow ordered.now self.now.batches commands signals }
    {
        let (batches, workers) = opened_row(alloc, ordered, self.batches, commands, signals)?;
        Some(batches.take(workers, self.last))
    }

    /// Does so with so many boards of the plan, where its batches are in such a row.
    fn take_all(&self, alloc: Global, ordered: &Ordered, rounds: u64) -> Option<bool> {
        let (commands, signals) = (self.commands(), self.signals());
        let plan = ordered.plan();
        if plan.jobs() != self.batches || !is_row(plan, commands, signals) {
            return None;
        }
        for _ in 0..rounds {
            if !self.once(alloc, ordered, commands, signals)? {
                return Some(false);
            }
        }
        Some(true)
    }

    /// Does so with so many boards. It says whether all came out as wanted.
    pub(crate) fn take(&self, alloc: Global, rounds: u64) -> Option<bool> {
        let text = row_text(alloc, self.batches, self.form).ok()?;
        self.take_all(alloc, &checked(alloc, text.as_str().as_bytes())?, rounds)
    }
}
