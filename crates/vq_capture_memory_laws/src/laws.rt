//! Laws over the verdict with memory. The functions do nothing: their contracts are the laws.
ghost use Rattle.std.specs.Prelude.{◌≡◌, ◌++◌, ◌∷◌, ℕ, List};
ghost use Rattle.vq_capture.specs.declared.capture.Step.{Step};
ghost use Rattle.vq_capture.specs.Reading.{read_capture};
ghost use Rattle.vq_capture_judge.specs.declared.status.JudgeStatus.{JudgeStatus};
ghost use Rattle.vq_capture_judge.specs.Endings.{Moment};
ghost use Rattle.vq_capture_memory.specs.declared.verdict.MemoryVerdict.{MemoryVerdict};
ghost use Rattle.vq_capture_memory.specs.MemoryVerdicts.{IsMemoryVerdict};
ghost use Rattle.vq_capture_memory_judge.specs.MemoryEndings.{JudgesMemoryAs};
ghost use Rattle.vq_capture_memory_judge.specs.MemoryJudging.{memory_judged};
ghost use Rattle.vq_capture_memory_laws.specs.FindingUnseen.{FindsUnseen, found_unseen};
ghost use Rattle.vq_capture_memory_laws.specs.MemoryJudgements.{JudgesMemory};

/// Above a step of a text the search finds the greatest line of a write that the step has to see, and doesn't; where it
/// finds none, the step sees all.
pub fn search_finds_unseen()
    ensures { (text : List ℕ) → (above below : List Step) → (b : Step) →
        (read_capture text).steps ≡ above ++ b ∷ below →
        FindsUnseen (read_capture text).steps b (found_unseen above b) }
{}

/// The verdict with memory that the check comes to is that of the definition, and the only one.
pub fn memory_judged_is_the_verdict()
    ensures given { (text : List ℕ) → IsMemoryVerdict text (memory_judged text) }
    ensures only { (text : List ℕ) → (verdict : MemoryVerdict) → IsMemoryVerdict text verdict →
        verdict ≡ memory_judged text }
{}

/// What `judge_memory` promises is a promise by the definition: it writes the verdict on all that its source had.
pub fn judge_memory_keeps_the_definition()
    ensures { (status : JudgeStatus) → (before now : Moment) →
        JudgesMemoryAs status before now → JudgesMemory status before now }
{}
