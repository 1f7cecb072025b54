//! Laws over the runs of the specification's machine. The functions do nothing: their contracts are
//! the laws. Each holds of every well-formed plan with a sure order (the clause `ordered`), whatever
//! forms of lines made it, and so of each lawful plan of a script that was read (the clause `lawful`).
ghost use Rattle.std.specs.Prelude.{◌≡◌, ◌≤◌, ◌↔◌, List, ℕ, true, false};
ghost use Rattle.vq_model.specs.Plan.{Plan};
ghost use Rattle.vq_model.specs.Machine.{Step, Run, state_after};
ghost use Rattle.vq_model.specs.ProgressRuns.{ProgressRun, progress_after, without_answers};
ghost use Rattle.vq_model.specs.Machine.{is_reached, are_reached};
ghost use Rattle.vq_model.specs.ProgressRuns.{HasOneResult};
ghost use Rattle.vq_model.specs.SlowRun.{payload_after, slow_order};
ghost use Rattle.vq_model.specs.Checks.{IsLawful, IsUnreachableAt};
ghost use Rattle.vq_model.specs.LoweredPlans.{IsPlan};
ghost use Rattle.vq_model.specs.WellFormed.{IsWellFormed, KeepsHostOrder};
ghost use Rattle.vq_model.specs.SureOrder.{HasSureOrder};
ghost use Rattle.vq_model.specs.EdgeReasons.{HasNoHeldWait};
ghost use Rattle.vq_model.specs.Edges.{AtEnd};
ghost use Rattle.vq_model.specs.HappensBefore.{HappensBeforeCommand, HappensBefore};
ghost use Rattle.vq_run_laws.specs.RunFacts.{HasOneProgress, IsSureInTime, SlowRunIsRun, MakesAsPayloadsSay};
ghost use Rattle.vq_run_laws.specs.SlowAnswers.{AnswersSlowly};
ghost use Rattle.vq_run_laws.specs.RunFacts.{MakesNoneAfter, ReadsPayloads, HistoriesAreRuns, RunsGiveOutputs};

/// Every finished run leaves the bytes of the slow run, whatever the order of its steps. So does every
/// one without answers.
pub fn one_result()
    ensures ordered { (p : Plan) → IsWellFormed p → HasSureOrder p → HasOneResult p }
    ensures progress { (p : Plan) → IsWellFormed p → HasSureOrder p → HasOneProgress p }
    ensures lawful { (p : Plan) → IsPlan p → IsLawful p → HasOneResult p }
    ensures lawful_progress { (p : Plan) → IsPlan p → IsLawful p → HasOneProgress p }
{}

/// A run without its answers is a run of progress, and leads to the same.
pub fn runs_progress()
    ensures run { (p : Plan) → (steps : List Step) → Run p steps →
        ProgressRun p (without_answers steps) }
    ensures leads { (p : Plan) → (steps : List Step) → Run p steps →
        (state_after p steps).progress ≡ progress_after p (without_answers steps) }
{}

/// In each state of a run, what must come before has come.
pub fn sure_in_time()
    ensures ordered { (p : Plan) → IsWellFormed p → HasSureOrder p → IsSureInTime p }
    ensures lawful { (p : Plan) → IsPlan p → IsLawful p → IsSureInTime p }
{}

/// The slow run is a finished run: the jobs of its order one after another, each whole.
pub fn slow_run_is_a_run()
    ensures ordered { (p : Plan) → IsWellFormed p → HasSureOrder p → SlowRunIsRun p }
    ensures lawful { (p : Plan) → IsPlan p → IsLawful p → SlowRunIsRun p }
{}

/// In each state of a run an operation is made exactly where its chain's payload has reached its
/// value.
pub fn made_as_payloads_say()
    ensures ordered { (p : Plan) → IsWellFormed p → HasSureOrder p → MakesAsPayloadsSay p }
    ensures lawful { (p : Plan) → IsPlan p → IsLawful p → MakesAsPayloadsSay p }
{}

/// While a job without signals runs, no operation of a job after it is made.
pub fn none_after_a_running_job()
    ensures ordered { (p : Plan) → IsWellFormed p → HasSureOrder p → MakesNoneAfter p }
    ensures lawful { (p : Plan) → IsPlan p → IsLawful p → MakesNoneAfter p }
{}

/// In a plan in which no wait is held, commands are ordered as their jobs are, and a started job
/// waits for nothing more.
pub fn without_held_waits()
    ensures order { (p : Plan) → HasNoHeldWait p → (i j d : ℕ) →
        HappensBeforeCommand p i j d ↔ HappensBefore p i j }
    ensures reached { (p : Plan) → HasNoHeldWait p → (steps : List Step) → Run p steps →
        (j : ℕ) → (state_after p steps).progress.started j ≡ true →
        are_reached p (state_after p steps).progress.payload j AtEnd ≡ true }
{}

/// A history of events, without those on points, is a run of the machine. So no event need ask that a
/// signal sets a greater payload, or that a started batch stands after the last host step before it.
pub fn history_is_run()
    ensures ordered { (p : Plan) → IsWellFormed p → KeepsHostOrder p → HasSureOrder p →
        HistoriesAreRuns p }
    ensures lawful { (p : Plan) → IsPlan p → IsLawful p → HistoriesAreRuns p }
{}

/// The text of a finished run, answers and buffers, is one of the plan's outputs.
pub fn run_gives_output()
    ensures ordered { (p : Plan) → IsWellFormed p → KeepsHostOrder p → HasSureOrder p →
        RunsGiveOutputs p }
    ensures lawful { (p : Plan) → IsPlan p → IsLawful p → RunsGiveOutputs p }
{}

/// The slow run may be answered by the payloads that the jobs before each step leave: then its text is
/// one of the plan's outputs.
pub fn slow_run_has_answers()
    ensures ordered { (p : Plan) → IsWellFormed p → KeepsHostOrder p → HasSureOrder p →
        AnswersSlowly p }
    ensures lawful { (p : Plan) → IsPlan p → IsLawful p → AnswersSlowly p }
{}

/// What a read may give is what the payload was in some state from the job's start to now.
pub fn reads_give_payloads()
    ensures ordered { (p : Plan) → IsWellFormed p → HasSureOrder p → ReadsPayloads p }
    ensures lawful { (p : Plan) → IsPlan p → IsLawful p → ReadsPayloads p }
{}

/// A wait that is named unreachable is reached in no run, whatever the order of its steps: no run's
/// payloads go beyond those of the slow run.
pub fn unreachable_waits_are_never_reached()
    ensures never { (p : Plan) → IsWellFormed p → (line : ℕ) → (x : IsUnreachableAt p line) →
        (steps : List Step) → Run p steps →
        is_reached (state_after p steps).progress.payload x.need ≡ false }
    ensures within { (p : Plan) → IsWellFormed p → (steps : List Step) → Run p steps → (t : ℕ) →
        (state_after p steps).progress.payload t ≤ payload_after p (slow_order p) t }
{}
