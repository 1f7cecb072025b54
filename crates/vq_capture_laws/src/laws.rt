//! Laws over captures. The functions do nothing: their contracts are the laws.
ghost use Rattle.std.specs.Prelude.{◌≡◌, ◌<◌, ◌⊎◌, ℕ, List, true};
ghost use Rattle.vq_capture.specs.declared.capture.Step.{Step};
ghost use Rattle.vq_capture.specs.declared.capture.Verdict.{Verdict};
ghost use Rattle.vq_capture.specs.Points.{Point};
ghost use Rattle.vq_capture.specs.Before.{Before, is_direct};
ghost use Rattle.vq_capture.specs.Races.{Conflicts, Ordered, IsRace};
ghost use Rattle.vq_capture.specs.Reading.{read_capture};
ghost use Rattle.vq_capture.specs.Verdicts.{IsVerdict};
ghost use Rattle.vq_capture_laws.specs.Closure.{slow_verdict};
ghost use Rattle.vq_capture_laws.specs.Edges.{JoinedBy};

/// What is before is a strict order that follows the lines: it leads down, so no point is before itself, and two paths
/// make one.
pub fn before_is_a_strict_order()
    ensures down { (steps : List Step) → (x y : Point) → Before steps x y → x.step.line < y.step.line }
    ensures irreflexive { (steps : List Step) → (x : Point) → Before steps x x → ⊥ }
    ensures transitive { (steps : List Step) → (x y z : Point) → Before steps x y → Before steps y z →
        Before steps x z }
{}

/// Edges stand within one queue, within one host thread, between a wait and what releases it, between the handing over
/// of a batch and its submission, between a thread and one that was told, or at a cut; and nowhere else.
pub fn edges_have_a_cause()
    ensures { (steps : List Step) → (x y : Point) → is_direct steps x y ≡ true → JoinedBy steps x y }
{}

/// Of two accesses that conflict, the first is ordered before the second or they race, and not both.
pub fn conflicts_are_decided()
    ensures { (text : List ℕ) → (a b : Step) → let steps = (read_capture text).steps in
        Conflicts steps a b → Ordered steps a b ⊎ IsRace steps a b }
{}

/// Each text has one verdict, which is the one that is computed slowly.
pub fn slow_verdict_decides()
    ensures given { (text : List ℕ) → IsVerdict text (slow_verdict text) }
    ensures only { (text : List ℕ) → (verdict : Verdict) → IsVerdict text verdict → verdict ≡ slow_verdict text }
{}
