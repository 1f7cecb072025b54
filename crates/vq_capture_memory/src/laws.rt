//! Laws over memory in captures. The functions do nothing: their contracts are the laws.
ghost use Rattle.std.specs.Prelude.{◌≡◌, ℕ, List};
ghost use Rattle.vq_capture.specs.declared.capture.Step.{Step};
ghost use Rattle.vq_capture.specs.Races.{Conflicts, Ordered, IsRace};
ghost use Rattle.vq_capture_memory.specs.declared.verdict.MemoryVerdict.{MemoryVerdict};
ghost use Rattle.vq_capture_memory.specs.FullScopes.{AreFull, AreOfQueues};
ghost use Rattle.vq_capture_memory.specs.MemoryVerdicts.{IsMemoryVerdict};
ghost use Rattle.vq_capture_memory.specs.SlowMemory.{slow_memory_verdict};
ghost use Rattle.vq_capture_memory.specs.UnseenWrites.{IsUnseen, Sees};

/// What an access sees is ordered before it.
pub fn seen_is_ordered()
    ensures { (steps : List Step) → (a b : Step) → Sees steps a b → Ordered steps a b }
{}

/// No pair races and is unseen: what is unseen is ordered.
pub fn unseen_is_no_race()
    ensures { (steps : List Step) → (a b : Step) → IsUnseen steps a b → IsRace steps a b → ⊥ }
{}

/// Where each barrier and each event is of all stages and all kinds, what is ordered is seen.
pub fn full_scopes_show_all()
    ensures { (steps : List Step) → AreFull steps → AreOfQueues steps → (a b : Step) → IsUnseen steps a b → ⊥ }
{}

/// Each text has one verdict with memory, which is the one that is computed slowly.
pub fn slow_memory_verdict_decides()
    ensures given { (text : List ℕ) → IsMemoryVerdict text (slow_memory_verdict text) }
    ensures only { (text : List ℕ) → (verdict : MemoryVerdict) → IsMemoryVerdict text verdict →
        verdict ≡ slow_memory_verdict text }
{}
