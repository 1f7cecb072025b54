//! Laws on cuts and verdicts. The functions do nothing: their contracts are the laws.
ghost use Rattle.std.specs.Prelude.{◌≡◌, ℕ, List};
ghost use Rattle.vq_model.specs.Plan.{Plan};
ghost use Rattle.vq_given.specs.declared.given.Cut.{Cut};
ghost use Rattle.vq_given.specs.declared.given.GivenTrace.{GivenTrace};
ghost use Rattle.vq_given.specs.Cutting.{IsCut, IsUncut};
ghost use Rattle.vq_audit.specs.declared.verdict.Verdict.{Verdict as AnyVerdict};
ghost use Rattle.vq_audit.specs.Verdicts.{IsVerdict};

/// A text is cut at one place, or not cut.
pub fn texts_are_cut_once()
    ensures one { (text : List ℕ) → (cut other : Cut) → IsCut text cut → IsCut text other → cut ≡ other }
    ensures uncut { (text : List ℕ) → (cut : Cut) → IsCut text cut → ¬ IsUncut text }
{}

/// There is one verdict on a trace: it is lawful, or broken at one line, and never both.
pub fn traces_have_one_verdict()
    ensures { (p : Plan) → (given : GivenTrace) → (verdict other : AnyVerdict) →
        IsVerdict p given verdict → IsVerdict p given other → verdict ≡ other }
{}
