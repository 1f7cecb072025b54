//! A run, from its plan to its report.
//!
//! Source: this project's own, over Vulkan 1.3, "Queue Submission".
ghost use Rattle.std.specs.Prelude.{◌≡◌, ◌≤◌, ◌++◌, length, IfOk};
ghost use Rattle.vq_board.specs.Named.{plan_of_closed, told_of, bytes_of};
ghost use Rattle.vq_board_laws.specs.Ends.{IsFoldOfRun};
ghost use Rattle.vq_board_laws.specs.Reached.{lines_told};
ghost use Rattle.vq_model.specs.FittingCommands.{HasSizes};
ghost use Rattle.vq_model.specs.Outputs.{IsOutput, asking};
ghost use Rattle.vq_model.specs.OutputText.{answer_text, buffers_text};
ghost use Rattle.vq_model.specs.ValidScripts.{sizes_of};

use crate::gate::Gate;
use crate::opened::Opened;
use crate::report::Report;
use std::alloc::{AllocError, Global};
use std::sync::Wait;
use std::thread::Threads;
use vq_order::Ordered;

/// Runs a lawful plan by threads: one for each ring, and one for each threaded queue's submitting thread. The
/// caller takes the turns of the host, and of each actor whose thread can't be started. All memory is taken
/// before the first turn; the error is that there is none. What is left is what some finished run of the plan's
/// machine answers and leaves, and so one of the plan's outputs, and each answer is one that the host's pass told on
/// the board that was closed. Which run it is depends on the order in which threads come to the words of the board,
/// and so on the gate.
pub fn execute<R: Threads + Wait + Sync, G: Gate>(
    rt: &R,
    alloc: Global,
    ordered: Ordered,
    gate: &G,
) -> Result<Report, AllocError>
    ensures ordered { IfOk result (λ r. r.ordered ≡ ordered) }
    ensures plan { IfOk result (λ r. plan_of_closed r.closed ≡ ordered) }
    ensures told { IfOk result (λ r. r.answers.items ≡ lines_told ordered (told_of r.closed)) }
    ensures few { IfOk result (λ r. length r.answers.items ≤ length (asking ordered)) }
    ensures folded { IfOk result (λ r. IsFoldOfRun ordered (told_of r.closed) (bytes_of r.closed)) }
    ensures sizes { IfOk result (λ r. HasSizes (sizes_of ordered.script) (bytes_of r.closed)) }
    ensures output { IfOk result (λ r. IsOutput ordered
        (answer_text r.answers.items ++ buffers_text ordered.script.buffers (bytes_of r.closed))) }
{
    Ok(Opened::new(alloc, ordered)?.drive(rt, gate))
}
