//! The end of a board.
//!
//! Source: this project's own, where an item names no other.
ghost use Rattle.std.specs.Prelude.{◌≡◌};
ghost use Rattle.vq_model.specs.FittingCommands.{HasSizes};
ghost use Rattle.vq_model.specs.SlowRun.{final};
ghost use Rattle.vq_model.specs.ValidScripts.{sizes_of};
ghost use Rattle.vq_board_laws.specs.Ends.{KnowsAllFinished, IsFoldOfRun, IsToldOutput};
ghost use Rattle.vq_board.specs.Named.{plan_of, view, IsOf, plan_of_closed, told_of, bytes_of};

use crate::parts::{Board, Closed, Pass};
use std::snapshot::Snapshot;
use vq_board_laws::view::LoggedBuffers;
use vq_run_laws::laws::{one_result, run_gives_output};
use vq_transfer::Buffers;

impl Board {
    /// Ends the board, where the host's pass knows every job finished. It takes no memory.
    pub fn close(self, host: Pass) -> Closed
        requires board { IsOf self host }
        requires host { (view host).role ≡ 0 }
        requires all { KnowsAllFinished (plan_of self) (view host) }
        ensures plan { plan_of_closed result ≡ plan_of self }
        ensures told { told_of result ≡ (view host).told }
        ensures folded { IsFoldOfRun (plan_of self) (told_of result) (bytes_of result) }
        ensures whole { bytes_of result ≡ final (plan_of self) }
        ensures sizes { HasSizes (sizes_of (plan_of self).script) (bytes_of result) }
        ensures output { IsToldOutput (plan_of self) (told_of result) (bytes_of result) }
    {
        let (table, plan) = self.take_apart();
        let host_now = Snapshot::of(&host);
        let seat = host.into_seat();
        // these do nothing; their contracts say that all runs leave the same bytes, and an output
        one_result();
        run_gives_output();
        let mut closed = table.close_with(seat);
        let LoggedBuffers { buffers, filled: _ } = closed.take(0);
        closed.free();
        Closed {
            buffers,
            plan,
            host: host_now,
        }
    }
}

impl Closed {
    /// The buffers.
    pub fn buffers(&self) -> &Buffers
        ensures bytes { result.now ≡ bytes_of self.now }
        ensures whole { result.now ≡ final (plan_of_closed self.now) }
        ensures sizes { HasSizes (sizes_of (plan_of_closed self.now).script) result.now }
    {
        &self.buffers
    }
}
