//! The steps on the turn over the buffers and on the log.
//!
//! Source: this project's own, where an item names no other.
ghost use Rattle.std.specs.Prelude.{◌≡◌, ◌≢◌, ℕ, List, ◌+◌, ◌<◌, ◌^◌};
ghost use Rattle.std.specs.Prelude.{length, map, Some, None, IfSome, IfNone};
ghost use Rattle.vq_model.specs.Memory.{Memory, effect};
ghost use Rattle.vq_model.specs.FittingCommands.{Fits};
ghost use Rattle.vq_board_laws.specs.May.{MayEnter};
ghost use Rattle.vq_board_laws.specs.Steps.{takes_turn, misses_turn, gives_turn, enters};
ghost use Rattle.vq_board_laws.specs.Words.{turn_word, place_word};
ghost use Rattle.vq_board.specs.Named.{plan_of, view, IsOf, Turns, Leaves, Steps};

use crate::parts::{Board, MemoryTurn, Pass};
use crate::plays::{Enter, GiveTurn, TakeTurn};
use crate::words::{TURN_WORD, place_word};
use vq_board_laws::view::LoggedBuffers;
use vq_model::script::Command;

/// Applies a command that fits, and counts it.
fn apply(memory: &mut LoggedBuffers, command: &Command)
    requires fits { Fits (map length memory.old.buffers) command.now }
    requires few { memory.old.filled < 2 ^ 32 }
    ensures bytes { memory.new.buffers ≡ effect command.now memory.old.buffers }
    ensures sizes { map length memory.new.buffers ≡ map length memory.old.buffers }
    ensures filled { memory.new.filled ≡ memory.old.filled + 1 }
{
    memory.buffers.apply(command);
    memory.filled += 1;
}

impl Board {
    /// Takes the turn over the buffers for the job that the pass runs. It is `None` only where this
    /// step found the turn taken.
    pub fn take_memory(&self, pass: &mut Pass) -> Option<MemoryTurn>
        requires board { IsOf self.now pass.old }
        requires runs { (j : ℕ) × ((view pass.old).runs ≡ Some j) }
        requires turnless { (view pass.old).held ≡ None }
        ensures taken { IfSome result (λ _. (n : ℕ) × (bytes : Memory)
            × Turns pass.old pass.new (takes_turn (view pass.old) n bytes)) }
        ensures missed { IfNone result ((n : ℕ) × (n ≢ 0)
            × Turns pass.old pass.new (misses_turn (view pass.old) n)) }
        ensures step { Steps self.now pass.old pass.new turn_word }
    {
        let Some(job) = pass.runs else { unreachable!() };
        let found = self
            .table
            .shared
            .compare_exchange::<TakeTurn>(&mut pass.seat, TURN_WORD, 0, job as u64 + 1);
        if found == 0 {
            Some(MemoryTurn { private: () })
        } else {
            None
        }
    }

    /// Applies the next command of the job that the pass runs to the buffers, and enters it in the
    /// log.
    ///
    /// Source: Vulkan 1.3, "Clear Commands" and "Copy Commands". The log is this project's rule.
    pub fn enter(&self, pass: &mut Pass, turn: &mut MemoryTurn, command: u32)
        requires board { IsOf self.now pass.old }
        requires exists { command < length (plan_of self.now).commands }
        requires may { MayEnter (plan_of self.now) (view pass.old) command }
        ensures pass { (n : ℕ) × (bytes : Memory) × ((view pass.old).held ≡ Some n)
            × Turns pass.old pass.new (enters (view pass.old) command n bytes) }
        ensures step { (n : ℕ) → (view pass.old).held ≡ Some n →
            Leaves self.now pass.old pass.new (place_word n) (command + 1) }
    {
        let _ = turn;
        let memory = pass.seat.slot_mut(&self.table.shared, 0);
        let filled = memory.filled;
        apply(memory, self.copies.command(command));
        self.table
            .shared
            .store::<Enter>(&mut pass.seat, place_word(filled), command as u64 + 1);
    }

    /// Gives the turn over the buffers back.
    pub fn give_memory(&self, pass: &mut Pass, turn: MemoryTurn)
        requires board { IsOf self.now pass.old }
        requires holds { (n : ℕ) × ((view pass.old).held ≡ Some n) }
        ensures pass { Turns pass.old pass.new (gives_turn (view pass.old)) }
        ensures step { Leaves self.now pass.old pass.new turn_word 0 }
    {
        let MemoryTurn { private: () } = turn;
        self.table
            .shared
            .store::<GiveTurn>(&mut pass.seat, TURN_WORD, 0);
    }
}
