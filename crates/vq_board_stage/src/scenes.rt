//! The scripts of the tests, and boards of their plans.
ghost use Rattle.std.specs.Prelude.{◌≡◌, true, IfSome};
ghost use Rattle.vq_board.specs.Named.{plan_of};
ghost use Rattle.vq_board_stage.specs.Dealing.{AreNew};
ghost use Rattle.vq_board_stage.specs.FourBatches.{AreFour};
ghost use Rattle.vq_board_stage.specs.Scenes.{IsPlanOf};

use crate::alone::is_alone;
use crate::passes::board_of;
use crate::plans::checked;
use crate::reads::is_of_reads;
use crate::three_signals::is_of_three_signals;
use crate::two_waits::is_of_two_waits;
use std::alloc::Global;
use vq_board::{Board, Passes};
use vq_spec::Plan;

/// Each of four queues, of which the host submits to all, writes 12 bytes of its own, 4 at a time.
const CONTENDING: &[u8] = b"buffer X 48
queue P immediate
queue Q immediate
queue R immediate
queue S immediate
submit P
fill X 0 4 67305985
update X 4 05060708
update X 8 090a0b0c
end
submit Q
fill X 12 4 269422093
update X 16 11121314
update X 20 15161718
end
submit R
update X 24 191a1b1c
update X 28 1d1e1f20
update X 32 21222324
end
submit S
update X 36 25262728
update X 40 292a2b2c
update X 44 2d2e2f30
end
";

/// Three batches of P signal one timeline, and one of Q waits for the first of them.
const SIGNALING: &[u8] = b"buffer X 4
timeline A 0
queue P threaded
queue Q threaded
submit P
fill X 0 4 1
signal A 1
end
submit Q
wait A 1
end
submit P
signal A 2
end
submit P
signal A 3
end
";

/// The host reads a timeline, signals it and reads it again.
const READING: &[u8] = b"timeline A 0
host read A
host signal A 1
host read A
";

/// The host signals two timelines, and a batch that it submits waits for both.
const WAITING: &[u8] = b"timeline A 0
timeline B 0
queue P immediate
host signal A 1
host signal B 1
submit P
wait A 1
wait B 1
end
";

/// A script of the tests.
#[derive(Clone, Copy)]
pub enum Scene {
    /// Four batches on four queues, whose rings contend for the turn.
    Contending,
    /// Three batches that signal one timeline, and one that waits for the first of them.
    Signaling,
    /// Two reads of the host with a signal between them.
    Reading,
    /// Two signals of the host and a batch that waits for both.
    Waiting,
}

/// Whether the plan is that of four batches that have nothing to do with one another.
fn are_four(plan: &Plan) -> bool
    ensures { result ≡ true → AreFour plan.now }
{
    if plan.jobs() != 4 || !is_alone(plan, 0, &[0, 1, 2]) || !is_alone(plan, 1, &[3, 4, 5]) {
        return false;
    }
    is_alone(plan, 2, &[6, 7, 8]) && is_alone(plan, 3, &[9, 10, 11])
}

impl Scene {
    fn text(self) -> &'static [u8] {
        match self {
            Scene::Contending => CONTENDING,
            Scene::Signaling => SIGNALING,
            Scene::Reading => READING,
            Scene::Waiting => WAITING,
        }
    }

    /// Whether the plan is that of the script.
    fn has(self, plan: &Plan) -> bool
        ensures { result ≡ true → IsPlanOf self plan.now }
    {
        match self {
            Scene::Contending => are_four(plan),
            Scene::Signaling => is_of_three_signals(plan),
            Scene::Reading => is_of_reads(plan),
            Scene::Waiting => is_of_two_waits(plan),
        }
    }
}

/// The board of the script, with its passes.
pub fn opened(alloc: Global, scene: Scene) -> Option<(Board, Passes)>
    ensures plan { IfSome result (λ t. IsPlanOf scene (plan_of t.0)) }
    ensures passes { IfSome result (λ t. AreNew t.0 t.1) }
{
    let ordered = checked(alloc, scene.text())?;
    if !scene.has(ordered.plan()) {
        return None;
    }
    board_of(alloc, &ordered)
}
