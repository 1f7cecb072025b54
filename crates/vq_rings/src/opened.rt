//! A run that can begin, and the run.
//!
//! Source: this project's own.
ghost use Rattle.std.specs.Prelude.{◌≡◌, ◌≤◌, ◌++◌, length, IfOk};
ghost use Rattle.vq_board.specs.Named.{plan_of_closed, told_of, bytes_of};
ghost use Rattle.vq_board_laws.specs.Ends.{IsFoldOfRun};
ghost use Rattle.vq_board_laws.specs.Reached.{lines_told};
ghost use Rattle.vq_model.specs.FittingCommands.{HasSizes};
ghost use Rattle.vq_model.specs.Outputs.{IsOutput, asking};
ghost use Rattle.vq_model.specs.OutputText.{answer_text, buffers_text};
ghost use Rattle.vq_model.specs.ValidScripts.{sizes_of};

use crate::common::Common;
use crate::gate::Gate;
use crate::opening::{Parts, parts_of};
use crate::report::Report;
use crate::threads::{Done, run_threads};
use std::alloc::{AllocError, Global};
use std::marker::Model;
use std::sync::Wait;
use std::thread::Threads;
use vq_access::{Grounds, Waiting};
use vq_order::Ordered;

/// A run of a plan with all that it needs: no memory is taken after it was made. Contracts see the plan.
pub struct Opened {
    ordered: Ordered,
    parts: Parts,
}

impl Drop for Opened {
    fn drop(self) {
        let Opened {
            ordered: _ordered,
            parts: _parts,
        } = self;
    }
}

impl Model for Opened {
    ghost use Rattle.vq_model.specs.Plan.{Plan};
    ghost use Rattle.vq_rings.specs.Openings.{AreParts};

    ghost Value = { Plan };

    ghost view = { λ o. o.ordered };

    ghost invariant = { λ o. AreParts o.ordered o.parts };
}

impl Opened {
    /// A run before its first turn. The error is want of memory.
    pub fn new(alloc: Global, ordered: Ordered) -> Result<Opened, AllocError>
        ensures { IfOk result (λ o. o ≡ ordered) }
    {
        let parts = parts_of(alloc, &ordered)?;
        Ok(Opened { ordered, parts })
    }

    /// Runs all actors to the end, and closes the board. It takes no memory.
    pub fn drive<R: Threads + Wait + Sync, G: Gate>(self, rt: &R, gate: &G) -> Report
        ensures ordered { result.ordered ≡ self }
        ensures plan { plan_of_closed result.closed ≡ self }
        ensures told { result.answers.items ≡ lines_told self (told_of result.closed) }
        ensures few { length result.answers.items ≤ length (asking self) }
        ensures folded { IsFoldOfRun self (told_of result.closed) (bytes_of result.closed) }
        ensures sizes { HasSizes (sizes_of self.script) (bytes_of result.closed) }
        ensures output { IsOutput self
            (answer_text result.answers.items ++ buffers_text self.script.buffers (bytes_of result.closed)) }
    {
        let Opened { ordered, parts } = self;
        let Parts {
            board,
            timelines,
            company,
            lead,
            berths,
            progress,
            bells,
        } = parts;
        let common = Common {
            company,
            bells,
            progress,
        };
        let waiting = Waiting::new(rt);
        let grounds = Grounds::new(&waiting, &ordered, &board, timelines.as_slice());
        let Done { pass, answers } = run_threads(&grounds, &common, berths.as_slice(), lead, gate);
        let closed = board.close(pass);
        Report {
            ordered,
            answers,
            closed,
        }
    }
}
