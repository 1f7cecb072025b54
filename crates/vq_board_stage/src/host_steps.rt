//! The host's steps of the tests of answers and of waits, and the shelf's between them.
ghost use Rattle.std.specs.Prelude.{◌≡◌, ◌+◌, true};
ghost use Rattle.vq_board_laws.specs.declared.view.Fact.TheVariants.{Made};
ghost use Rattle.vq_board_laws.specs.declared.view.Role.TheVariants.{Shelf};
ghost use Rattle.vq_board_laws.specs.Knowledge.{Knows};
ghost use Rattle.vq_board.specs.Named.{plan_of, view};
ghost use Rattle.vq_board_stage.specs.Dealing.{IsNew};
ghost use Rattle.vq_board_stage.specs.HostSteps.{HasSignal, AreSingle};
ghost use Rattle.vq_board_stage.specs.HostSteps.{HasFinished, IsAtStep};
ghost use Rattle.vq_board_stage.specs.Reads.{IsOfReads};

use vq_board::{Board, JobState, OpState, Pass};
use vq_model::plan::Answer;

/// The host reads the timeline while its signal has no point: it is 0.
#[tactic(auto, using(crate::proofs::Asks::needs_nothing))]
pub fn read_first(board: &Board, host: &mut Pass) -> bool
    requires plan { IsOfReads (plan_of board.now) }
    requires host { HasFinished board.now host.old 0 }
    ensures { result ≡ true → HasFinished board.now host.new 1 }
{
    board.start(host, 0);
    if board.recall(host, 0) != OpState::Unbound {
        return false;
    }
    board.answer(host, 0, Answer::Value(0));
    board.finish(host, 0);
    true
}

/// The shelf gives the signal the point with its number, as soon as its step is started.
fn bind(board: &Board, shelf: &mut Pass, step: u32, op: u32) -> bool
    requires step { HasSignal (plan_of board.now) step op }
    requires single { AreSingle (plan_of board.now) }
    requires shelf { IsNew board.now shelf.old (Shelf op) }
{
    if board.make(shelf) != op || board.job_state(shelf, step) != JobState::Started {
        return false;
    }
    board.assign(shelf, op, op);
    board.bind(shelf, op, op);
    true
}

/// The host makes its step's signal, and finishes the step.
#[tactic(auto, using(crate::proofs::Asks::needs_nothing))]
fn signal(board: &Board, host: &mut Pass, step: u32, op: u32) -> bool
    requires step { HasSignal (plan_of board.now) step op }
    requires host { IsAtStep board.now host.old step }
    ensures host { result ≡ true → HasFinished board.now host.new (step + 1) }
    ensures made { result ≡ true → Knows (view host.new).known (Made op) }
{
    if board.signal(host, op).is_err() {
        return false;
    }
    board.finish(host, step);
    true
}

/// The host makes its next step, whose signal the shelf gives a point in between.
#[tactic(auto, using(crate::proofs::Asks::needs_nothing))]
pub fn make_signal(board: &Board, host: &mut Pass, shelf: &mut Pass, step: u32, op: u32) -> bool
    requires step { HasSignal (plan_of board.now) step op }
    requires single { AreSingle (plan_of board.now) }
    requires host { HasFinished board.now host.old step }
    requires shelf { IsNew board.now shelf.old (Shelf op) }
    ensures host { result ≡ true → HasFinished board.now host.new (step + 1) }
    ensures made { result ≡ true → Knows (view host.new).known (Made op) }
{
    board.start(host, step);
    bind(board, shelf, step, op) && signal(board, host, step, op)
}

/// The host reads the timeline again: it is 1.
#[tactic(auto, using(crate::proofs::Asks::needs_nothing))]
pub fn read_last(board: &Board, host: &mut Pass)
    requires plan { IsOfReads (plan_of board.now) }
    requires host { HasFinished board.now host.old 2 }
    requires made { Knows (view host.old).known (Made 0) }
    ensures { HasFinished board.now host.new 3 }
{
    board.start(host, 2);
    board.answer(host, 2, Answer::Value(1));
    board.finish(host, 2);
}
