//! Laws over the verdict on captures. The functions do nothing: their contracts are the laws.
ghost use Rattle.std.specs.Prelude.{◌≡◌, ℕ, List};
ghost use Rattle.vq_capture.specs.declared.capture.Verdict.{Verdict};
ghost use Rattle.vq_capture.specs.Verdicts.{IsVerdict};
ghost use Rattle.vq_capture_judge.specs.declared.status.JudgeStatus.{JudgeStatus};
ghost use Rattle.vq_capture_judge.specs.Endings.{JudgesAs, Moment};
ghost use Rattle.vq_capture_judge.specs.Judging.{judged_text};
ghost use Rattle.vq_capture_judge_laws.specs.Judgements.{JudgesByDefinition};

/// The verdict that the check comes to line by line is that of the definition, and the only one.
pub fn judged_text_is_the_verdict()
    ensures given { (text : List ℕ) → IsVerdict text (judged_text text) }
    ensures only { (text : List ℕ) → (verdict : Verdict) → IsVerdict text verdict → verdict ≡ judged_text text }
{}

/// What `judge` promises is a promise by the definition: it writes the verdict on all that its source had.
pub fn judge_keeps_the_definition()
    ensures { (status : JudgeStatus) → (before now : Moment) →
        JudgesAs status before now → JudgesByDefinition status before now }
{}
