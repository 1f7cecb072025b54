//! Laws over the plans of scripts. The functions do nothing: their contracts are the laws.
ghost use Rattle.std.specs.Prelude.{◌≡◌, ◌&&◌, not, ℕ, List, Some, None, ◌+◌, true, false, take};
ghost use Rattle.std.specs.Prelude.{count_by, suc, []};
ghost use Rattle.std.specs.List.{list_all, slice_get};
ghost use Rattle.vq_model.specs.Plan.{Plan, value};
ghost use Rattle.vq_ground.specs.Lists.{has};
ghost use Rattle.vq_model.specs.Edges.{must_finish, AtEnd};
ghost use Rattle.vq_model.specs.EdgeReasons.{HasNoHeldWait};
ghost use Rattle.vq_model.specs.WellFormed.{IsWellFormed, KeepsHostOrder};
ghost use Rattle.vq_model.specs.Machine.{are_reached};
ghost use Rattle.vq_model.specs.SlowRun.{is_ready, payload_after};
ghost use Rattle.vq_model.specs.LoweringFaults.{LoweringFault, lowering_fault};
ghost use Rattle.vq_model.specs.FaultyUses.{IsFirstFaultyUse, HasNoFaultyUse};
ghost use Rattle.vq_model.specs.LoweredPlans.{IsPlan};
ghost use Rattle.vq_model.specs.declared.script.Script.{Script};
ghost use Rattle.vq_model.specs.declared.script.Turn.{Turn};
ghost use Rattle.vq_model.specs.declared.statement.Form.{Form};
ghost use Rattle.vq_model.specs.Reading.{StandsFor};
ghost use Rattle.vq_model.specs.SameScript.{IsRead};
ghost use Rattle.vq_model.specs.Signals.{Signaling, all_signals, signals_semaphore, value_at, is_timeline_at};
ghost use Rattle.vq_model.specs.Checks.{IsEffectiveReset};
ghost use Rattle.vq_model.specs.Lowering.{effective_resets, plan_of};
ghost use Rattle.vq_model.specs.ValidScripts.{IsValid};
ghost use Rattle.vq_model.specs.Lanes.{KeepsLanes, KeepsSemaphores, HasLinesInOrder};

/// Places of waits don't touch the slow run: a job is ready when all its needs are reached.
pub fn slow_run_ignores_places()
    ensures { (p : Plan) → IsWellFormed p → (done : List ℕ) → (j : ℕ) →
        is_ready p done j
        ≡ (not (has done j) && list_all (has done) (must_finish p j)
        && are_reached p (payload_after p done) j AtEnd) }
{}

/// The fault of a script's lowering is that of the first faulty use, and there is none where no use
/// is faulty: a wait with no more earlier signals than earlier waits, a signal with an earlier
/// signal and no wait since, a fence that was named and not reset since.
pub fn lowering_finds_faults()
    ensures found { (s : Script) → (n : ℕ) → (k : LoweringFault) → lowering_fault s ≡ Some (n, k) →
        IsFirstFaultyUse s n k }
    ensures none { (s : Script) → lowering_fault s ≡ None → HasNoFaultyUse s }
{}

/// A signal of a timeline has the value that is written; the k-th signal of a binary semaphore, and
/// the k-th naming of a fence, has value k.
pub fn signals_have_values()
    ensures timeline { (s : Script) → (e : ℕ) → (x : Signaling) →
        slice_get (all_signals s) e ≡ Some x → is_timeline_at s x.semaphore ≡ true →
        value_at s e ≡ x.value }
    ensures counted { (s : Script) → (e : ℕ) → (x : Signaling) →
        slice_get (all_signals s) e ≡ Some x → is_timeline_at s x.semaphore ≡ false →
        value_at s e ≡ count_by (signals_semaphore x.semaphore) (take e (all_signals s)) + 1 }
{}

/// The number of effective resets of a fence grows by one at each reset that is effective, and at
/// no other job.
pub fn effective_resets_count()
    ensures effective { (s : Script) → (fence naming j : ℕ) → IsEffectiveReset s fence naming j →
        effective_resets fence false (take (suc j) s.jobs)
        ≡ effective_resets fence false (take j s.jobs) + 1 }
    ensures other { (s : Script) → (fence j : ℕ) →
        ((naming : ℕ) → ¬ IsEffectiveReset s fence naming j) →
        effective_resets fence false (take (suc j) s.jobs)
        ≡ effective_resets fence false (take j s.jobs) }
{}

/// What is known of each plan: it is well formed, and its host steps run one after another.
pub fn plans_keep()
    ensures plan { (p : Plan) → IsPlan p → IsWellFormed p }
    ensures host { (p : Plan) → IsPlan p → KeepsHostOrder p }
{}

/// The plan of a valid script is well formed, and its host steps run one after another.
pub fn plans_are_well_formed()
    ensures plan { (s : Script) → IsValid s → IsWellFormed (plan_of s) }
    ensures host { (s : Script) → IsValid s → KeepsHostOrder (plan_of s) }
{}

/// In each plan the jobs of a lane stand in the order of the script, operations are numbered in the
/// order of their jobs, and what jobs name exists: jobs, lanes, operations and chains. The lines of
/// commands, and those of operations, rise with their numbers.
pub fn plans_are_in_order()
    ensures lanes { (p : Plan) → IsPlan p → KeepsLanes p }
    ensures semaphores { (p : Plan) → IsPlan p → KeepsSemaphores p }
    ensures lines { (p : Plan) → IsPlan p → HasLinesInOrder p }
{}

/// In a plan of the first version no wait holds back a part of its batch only.
pub fn first_version_holds_no_wait()
    ensures { (p : Plan) → IsPlan p → p.script.version ≡ 1 → HasNoHeldWait p }
{}

/// No part of a plan but its script depends on the turns of a schedule. So where a script was read, and
/// its turns are moved out of it or changed, it has the same fault of lowering or the same plan; with no
/// turns left it still counts as read.
pub fn plans_ignore_turns()
    ensures read { (text : List ℕ) → (form : Form) → (s : Script) → StandsFor text form s →
        IsRead s × IsRead (record s { turns = [] }) }
    ensures fault { (s : Script) → (turns : List Turn) →
        lowering_fault (record s { turns = turns }) ≡ lowering_fault s }
    ensures plan { (s : Script) → (turns : List Turn) → plan_of (record s { turns = turns })
        ≡ record (plan_of s) { script = record s { turns = turns } } }
{}
