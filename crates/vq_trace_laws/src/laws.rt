//! Laws over traces. The functions do nothing: their contracts are the laws.
ghost use Rattle.std.specs.Prelude.{ℕ, List, All, length, ◌<◌, ◌^◌};
ghost use Rattle.vq_model.specs.Plan.{Plan};
ghost use Rattle.vq_model.specs.Checks.{IsLawful};
ghost use Rattle.vq_model.specs.LoweredPlans.{IsPlan};
ghost use Rattle.vq_model.specs.ValidScripts.{IsActor};
ghost use Rattle.vq_model.specs.declared.script.Turn.{Turn};
ghost use Rattle.vq_replay.specs.Rounds.{IsRoundsTrace, moved_turns};
ghost use Rattle.vq_replay.specs.Traced.{IsTrace};
ghost use Rattle.vq_replay.specs.Traces.{played_turns};
ghost use Rattle.vq_trace_laws.specs.ReadsBack.{HasSmallLines, ReadsBack};

/// The text of a schedule's turns over a lawful plan, as a replay writes it, can be read as a trace, whatever number
/// its first line has: the events are those of the turns, each by its actor, and the trace is lawful.
pub fn replays_read_back()
    ensures { (p : Plan) → IsPlan p → IsLawful p → HasSmallLines p → (turns : List Turn) →
        All (λ t. IsActor p.script t.actor) turns → length turns < 2 ^ 64 → (text : List ℕ) →
        IsTrace p turns text → (first : ℕ) → ReadsBack p first text (played_turns p turns) }
{}

/// So can the text of rounds that finish all jobs of a lawful plan.
pub fn rounds_read_back()
    ensures { (p : Plan) → IsPlan p → IsLawful p → HasSmallLines p → (text : List ℕ) →
        (trace : IsRoundsTrace p text) → (first : ℕ) →
        ReadsBack p first text (moved_turns p trace.rounds) }
{}

/// Where the text of a plan's script is shorter than 2^64 bytes, its lines have numbers below 2^64.
pub fn short_texts_have_small_lines()
    ensures { (p : Plan) → (plan : IsPlan p) → length plan.of_script.text < 2 ^ 64 → HasSmallLines p }
{}
