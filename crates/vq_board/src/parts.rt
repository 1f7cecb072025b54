//! The board and its passes.
//!
//! Source: this project's own, where an item names no other.
ghost use Rattle.std.specs.Prelude.{ℕ, ◌≡◌, ◌^◌, ◌<◌, length, map};
ghost use Rattle.vq_model.specs.Plan.{chain};
ghost use Rattle.vq_model.specs.SlowRun.{final};
ghost use Rattle.vq_model.specs.ValidScripts.{sizes_of};
ghost use Rattle.vq_board_laws.specs.RunLaws.{RunLaws, run_laws_prop};
ghost use Rattle.vq_board_laws.specs.Words.{word_count};
ghost use Rattle.vq_board.specs.Copied.{command_of, AllFit, AllFit-prop as fit_prop};
ghost use Rattle.vq_board.specs.Firsts.{AreCounted, AreCounted-prop, StandInChains};
ghost use Rattle.vq_board.specs.Hands.{InHand, Hand-prop};

use crate::copies::Copies;
use atomic_table::{Seat, Table};
use std::alloc::Global;
use std::snapshot::Snapshot;
use vq_board_laws::rule::Ruled;
use vq_board_laws::view::{LoggedBuffers, Role, View};
use vq_spec::Plan;
use vq_transfer::Buffers;

/// The words and the buffers of a plan.
pub struct Board {
    pub(crate) table: BoardTable,
    pub(crate) copies: Copies,
    pub(crate) plan: Snapshot<Plan>,
    ghost sized: { table.shared.table_id.words ≡ word_count table.shared.key },
    ghost one_slot: { table.shared.table_id.slots ≡ 1 },
    ghost planned: { plan.value ≡ table.shared.key },
    ghost few: { length table.shared.key.commands < 2 ^ 32 },
    ghost few_ops: { length table.shared.key.ops < 2 ^ 32 },
    ghost laws: { RunLaws table.shared.key } by { run_laws_prop table.shared.key },
    ghost copied: { copies.commands ≡ map command_of table.shared.key.commands },
    ghost fit: { AllFit table.shared.key.sizes copies.commands } by { fit_prop table.shared.key.sizes copies.commands },
    ghost ops: { copies.ops ≡ table.shared.key.ops },
    ghost placed: { StandInChains table.shared.key },
    ghost short: { (t : ℕ) → length (chain table.shared.key t) < 2 ^ 32 },
}

/// A board's table.
pub(crate) type BoardTable = Table<LoggedBuffers, View, Plan, Ruled, Global>;

impl Board {
    /// The table, and what clauses see of the plan.
    pub(crate) fn take_apart(self) -> (BoardTable, Snapshot<Plan>)
        ensures table { result.0 ≡ self.table }
        ensures plan { result.1 ≡ self.plan }
    {
        let Board {
            table,
            copies: _copies,
            plan,
        } = self;
        (table, plan)
    }
}

impl Drop for Board {
    fn drop(self) {
        let Board {
            table: _table,
            copies: _copies,
            plan: _plan,
        } = self;
    }
}

/// What one actor knows of a board and has done on it. It takes the actor's steps. Of each chain it
/// counts how many of the first operations its own steps showed made.
pub struct Pass {
    pub(crate) seat: Seat<LoggedBuffers, View>,
    pub(crate) role: Role,
    pub(crate) runs: Option<u32>,
    pub(crate) first_made: Vec<u32>,
    ghost running: { runs ≡ seat.me.0.runs },
    ghost hand: { InHand seat.me } by { Hand-prop seat.me.0.held seat.me.0.bytes seat.me.0.plan seat.me.1 },
    ghost firsts: { AreCounted first_made.items seat.me } by { AreCounted-prop first_made.items seat.me },
}

impl Pass {
    /// The seat at the board's table.
    pub(crate) fn into_seat(self) -> Seat<LoggedBuffers, View>
        ensures { result ≡ self.seat }
    {
        let Pass {
            seat,
            role: _role,
            runs: _runs,
            first_made: _first_made,
        } = self;
        seat
    }
}

impl Drop for Pass {
    fn drop(self) {
        let Pass {
            seat: _seat,
            role: _role,
            runs: _runs,
            first_made: _first_made,
        } = self;
    }
}

/// An operation isn't bound to a point yet.
#[derive(Clone, Copy, Debug, PartialEq, Eq)]
pub struct Unbound;

/// The word of a point was changed by others meanwhile: this was found.
#[derive(Clone, Copy, Debug, PartialEq, Eq)]
pub struct Lost {
    pub found: u64,
}

/// The point has a reference, or its word was changed by others meanwhile: this was found.
#[derive(Clone, Copy, Debug, PartialEq, Eq)]
pub struct InUse {
    pub found: u64,
}

/// What came of the wish for a reference.
#[derive(Clone, Copy, Debug, PartialEq, Eq)]
pub enum Referred {
    /// The pass holds it.
    Held,
    /// The point carries another operation, or none: this word was found.
    MovedOn { found: u64 },
    /// The word was changed by others meanwhile, and still carries the operation: this was found.
    Lost { found: u64 },
}

/// The turn over the buffers.
#[derive(Drop)]
pub struct MemoryTurn {
    pub(crate) private: (),
}

/// The passes of a board: the host's, one for each threaded queue in the order of the queues, one for
/// each queue, and one for each chain.
#[derive(Drop)]
pub struct Passes {
    pub host: Pass,
    pub submits: Vec<Pass>,
    pub rings: Vec<Pass>,
    pub shelves: Vec<Pass>,
}

/// What a board leaves once every job is finished: the buffers, with the bytes of the slow run of its
/// plan. Clauses also see the host's pass as it was, with the answers that it told.
pub struct Closed {
    pub(crate) buffers: Buffers,
    pub(crate) plan: Snapshot<Plan>,
    pub(crate) host: Snapshot<Pass>,
    ghost whole: { buffers ≡ final plan.value },
    ghost sized: { map length buffers ≡ sizes_of plan.value.script },
}

impl Drop for Closed {
    fn drop(self) {
        let Closed {
            buffers: _buffers,
            plan: _plan,
            host: _host,
        } = self;
    }
}
