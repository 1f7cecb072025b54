//! The events of commands and signals.
//!
//! Source: this project's own.
ghost use Rattle.std.specs.Prelude.{◌≡◌, ◌≢◌, ◌<◌, ℕ, Ok, Some, None, IfErr, length, true, false};
ghost use Rattle.vq_access.specs.Posts.{meaning, shows};
ghost use Rattle.vq_actor.specs.Answers.{AnswersTry, Is, bound_first};
ghost use Rattle.vq_actor.specs.Meanings.{IsNext};
ghost use Rattle.vq_board.specs.Named.{plan_of, view, board_of, IsOf};
ghost use Rattle.vq_board_laws.specs.May.{MayEnter};
ghost use Rattle.vq_board_laws.specs.Steps.{takes_turn, misses_turn, gives_turn, enters};
ghost use Rattle.vq_model.specs.Memory.{Memory};
ghost use Rattle.vq_turns.specs.Turns.{forward};
ghost use Rattle.vq_turns.specs.declared.task.Task.{Task};
ghost use Rattle.vq_turns.specs.declared.outcome.Want.{Want as AnyWant};

use crate::last::Last;
use crate::post::Post;
use vq_actor::Step;
use vq_board::{Board, Pass, Unbound};
use vq_model::plan::Event;
use vq_turns::outcome::Want;

/// Takes the turn over the buffers, applies a command and gives the turn back; nothing where the turn is taken.
fn enter(board: &Board, pass: &mut Pass, command: u32) -> bool
    requires board { IsOf board.now pass.old }
    requires exists { command < length (plan_of board.now).commands }
    requires runs { (j : ℕ) × ((view pass.old).runs ≡ Some j) }
    requires turnless { (view pass.old).held ≡ None }
    requires may { (n : ℕ) (bytes : Memory) →
        MayEnter (plan_of board.now) (takes_turn (view pass.old) n bytes) command }
    ensures board { board_of pass.new ≡ board_of pass.old }
    ensures entered { result ≡ true → (n : ℕ) × (bytes more : Memory)
        × (view pass.new ≡ gives_turn (enters (takes_turn (view pass.old) n bytes) command n more)) }
    ensures missed { result ≡ false → (n : ℕ) × (n ≢ 0) × (view pass.new ≡ misses_turn (view pass.old) n) }
{
    let Some(mut turn) = board.take_memory(pass) else {
        return false;
    };
    board.enter(pass, &mut turn, command);
    board.give_memory(pass, turn);
    true
}

impl<'a> Post<'a> {
    /// Applies a command of a job, where the turn over the buffers is free.
    pub(crate) fn apply(&mut self, job: u32, command: u32) -> Step
        requires { IsNext (meaning self.old) (Task.Apply job command) }
        ensures answer { AnswersTry (meaning self.old) (meaning self.new) (forward (meaning self.old).place)
            (λ w. Ok (Event.Apply job command)) (Is (Event.Apply job command)) (shows self.new) result }
        ensures wants { IfErr result (λ want. want ≡ AnyWant.MemoryTurn) }
    {
        self.last = Last::Other;
        let _lawful = self.ordered.plan();
        if !enter(self.board, self.pass, command) {
            return Err(Want::MemoryTurn);
        }
        self.seat.forward();
        Ok(Event::Apply { job, command })
    }

    /// Signals an operation, where it is bound.
    pub(crate) fn signal(&mut self, op: u32) -> Step
        requires { IsNext (meaning self.old) (Task.Signal op) }
        ensures answer { AnswersTry (meaning self.old) (meaning self.new) (forward (meaning self.old).place)
            (λ w. bound_first w (Event.Signal op) op) (Is (Event.Signal op)) (shows self.new) result }
        ensures wants { IfErr result (λ want. want ≡ AnyWant.Bound op) }
    {
        self.last = Last::Other;
        let _lawful = self.ordered.plan();
        if let Err(Unbound) = self.board.signal(self.pass, op) {
            return Err(Want::Bound { op });
        }
        self.seat.forward();
        Ok(Event::Signal { op })
    }
}
