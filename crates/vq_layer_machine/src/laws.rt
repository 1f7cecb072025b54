//! Laws on whole runs of a live layer, told by starts, commands, completes, finishes and the host's signals. The
//! functions do nothing, or call another law: their contracts are the laws.
ghost use Rattle.std.specs.Prelude.{◌≡◌, ℕ, List, false};
ghost use Rattle.vq_model.specs.Lowering.{plan_of};
ghost use Rattle.vq_model.specs.Machine.{Run, IsFinished, state_after};
ghost use Rattle.vq_model.specs.SureOrder.{HasSureOrder};
ghost use Rattle.vq_model.specs.SlowRun.{bytes_after, final};
ghost use Rattle.vq_model.specs.WellFormed.{IsWellFormed};
ghost use Rattle.vq_run_laws.specs.RunFacts.{IsSureInTime};
ghost use Rattle.vq_layer.specs.Layer.{live_at, kind_at, no_layer};
ghost use Rattle.vq_layer.specs.Names.{is_closed};
ghost use Rattle.vq_layer_laws.specs.Runs.{AreCalls};
ghost use Rattle.vq_layer_machine.specs.Tales.{Work, Told, IsTale, no_scene, after_tale, calls_of, steps_of};
ghost use Rattle.vq_layer_machine.specs.Scripts.{script_of, AreFitting};

/// Whatever is submitted to a live layer, held back or taken back, its tale is a run of the machine of the plan of what
/// was submitted and not taken back. After it each timeline and binary semaphore that isn't closed shows the machine's
/// payload of what it stands for. The calls of a tale are a run of the layer's calls.
pub fn layer_runs_are_runs_of_the_machine()
    ensures run { (w : Work) → (tale : List Told) → IsTale w tale →
        Run (plan_of (script_of w tale)) (steps_of w tale) }
    ensures shows { (w : Work) → (tale : List Told) → IsTale w tale → (n : ℕ) →
        is_closed (kind_at (after_tale w no_scene tale).layer.kinds n) ≡ false →
        (state_after (plan_of (script_of w tale)) (steps_of w tale)).progress.payload
        ((after_tale w no_scene tale).names n)
        ≡ (live_at (after_tale w no_scene tale).layer.timelines n).payload }
    ensures calls { (w : Work) → (tale : List Told) → IsTale w tale → AreCalls no_layer (calls_of tale) }
{}

/// The plan of what was submitted is well formed, however much it is, where the batches' commands fit the buffers. So
/// what is a law of well-formed plans holds of it.
pub fn submissions_have_a_plan()
    ensures { (w : Work) → (tale : List Told) → IsTale w tale → AreFitting w tale →
        IsWellFormed (plan_of (script_of w tale)) }
{}

/// Where the commands of what was submitted fit the buffers and it is in a sure order, each tale in which all of it is
/// finished leaves the same bytes, those of the slow run: so what is held back, and when, is seen in no result.
pub fn submissions_in_a_sure_order_have_one_result()
    ensures { (w : Work) → (tale : List Told) → IsTale w tale → AreFitting w tale →
        HasSureOrder (plan_of (script_of w tale)) →
        IsFinished (plan_of (script_of w tale)) (state_after (plan_of (script_of w tale)) (steps_of w tale)) →
        bytes_after (plan_of (script_of w tale))
        (state_after (plan_of (script_of w tale)) (steps_of w tale)).progress.applied
        ≡ final (plan_of (script_of w tale)) }
{}

/// And then in each state of each run of that plan's machine, and so after each part of a tale, what must come before
/// has come.
pub fn submissions_in_a_sure_order_are_sure_in_time()
    ensures { (w : Work) → (tale : List Told) → IsTale w tale → AreFitting w tale →
        HasSureOrder (plan_of (script_of w tale)) → IsSureInTime (plan_of (script_of w tale)) }
{
    vq_run_laws::laws::sure_in_time();
}
