//! Laws over the order of a plan: the slow run, what happens before what, and what is sure. The
//! functions do nothing: their contracts are the laws.
ghost use Rattle.std.specs.Prelude.{◌≡◌, ◌<◌, ◌++◌, ℕ, length, true, false, List, ◌∷◌, ◌⊎◌};
ghost use Rattle.std.specs.Prelude.{[], None, ◌↔◌};
ghost use Rattle.vq_model.specs.Plan.{Plan, chain, initial, value};
ghost use Rattle.vq_ground.specs.Lists.{has};
ghost use Rattle.vq_model.specs.WellFormed.{IsWellFormed};
ghost use Rattle.vq_model.specs.SlowRun.{is_ready, slow_order, left_over};
ghost use Rattle.vq_model.specs.Checks.{IsUnreachableAt, IsLawful, IsUnordered, IsRaceAt, NoLines, is_timeline_chain};
ghost use Rattle.vq_model.specs.Checks.{IsFenceBusyAt, NoLine, IsFirstPlanFault};
ghost use Rattle.vq_model.specs.Edges.{Stage, edges_at};
ghost use Rattle.vq_model.specs.EdgeReasons.{edges_to, EdgeAt};
ghost use Rattle.vq_model.specs.Sure.{IsSureAt};
ghost use Rattle.vq_model.specs.SureOrder.{RisesFrom};
ghost use Rattle.vq_model.specs.HappensBefore.{HappensBeforeAt, comes_earlier};
ghost use Rattle.vq_model.specs.SureOrder.{HasNoRace, HasSureOrder};
ghost use Rattle.vq_model.specs.LoweredPlans.{IsPlan};
ghost use Rattle.vq_model.specs.LoweringFaults.{lowering_fault};
ghost use Rattle.vq_model.specs.Signals.{is_timeline_at};
ghost use Rattle.vq_model.specs.Lowering.{plan_of};
ghost use Rattle.vq_model.specs.ValidScripts.{IsValid, HasValidBatches, HasValidSteps, HasRisingLines};
ghost use Rattle.vq_model.specs.declared.script.Script.{Script};
ghost use Rattle.vq_model.specs.declared.plan.OrderFault.{OrderFault};

/// The slow run does each job at most once. A job that it leaves can't be done whole, and where it
/// leaves one, a line is unreachable.
pub fn slow_run_stops()
    ensures once { (p : Plan) → (front back : List ℕ) → (j : ℕ) →
        slow_order p ≡ (front ++ j ∷ back) → has front j ≡ false }
    ensures left { (p : Plan) → (j : ℕ) → has (left_over p) j ≡ true →
        is_ready p (slow_order p) j ≡ false }
    ensures unreachable { (p : Plan) → IsWellFormed p → (j : ℕ) → has (left_over p) j ≡ true →
        (n : ℕ) × IsUnreachableAt p n }
{}

/// Whether a job happens before a place of another can be decided, and whether an operation is sure
/// for it.
pub fn order_decides()
    ensures before { (p : Plan) → (i j : ℕ) → (k : Stage) →
        HappensBeforeAt p i j k ⊎ ¬ HappensBeforeAt p i j k }
    ensures sure { (p : Plan) → (e j : ℕ) → (k : Stage) → IsSureAt p e j k ⊎ ¬ IsSureAt p e j k }
{}

/// Where no row of faults holds, conflicting commands of two jobs are ordered, and each timeline
/// rises in a sure order. So do binary semaphores and fences, by the refusals of lowering, the row of
/// waits that may be overtaken and the row of busy fences. So a lawful plan has all that the laws on
/// runs need.
pub fn lawful_plans_have_order()
    ensures commands { (p : Plan) → NoLines (IsRaceAt p) → HasNoRace p }
    ensures timelines { (p : Plan) → IsWellFormed p → NoLines (IsUnordered p) →
        (t : ℕ) → is_timeline_chain p t ≡ true → RisesFrom p (initial p t) (chain p t) }
    ensures counted { (p : Plan) → IsPlan p → left_over p ≡ [] → NoLines (IsUnordered p) →
        NoLine (IsFenceBusyAt p) → (t : ℕ) → is_timeline_chain p t ≡ false →
        RisesFrom p (initial p t) (chain p t) }
    ensures order { (p : Plan) → IsPlan p → IsLawful p → HasSureOrder p }
{}

/// The same of each script whose host steps signal timelines and reset fences. The k-th naming of a
/// fence signals value k. Between two namings stands an effective reset, the signal of the first
/// naming is sure for it where no fence is busy, and so it is for the batch of the second.
pub fn fences_rise_with_resets()
    ensures chains { (s : Script) → IsValid s → HasValidBatches s → HasValidSteps s →
        HasRisingLines s → lowering_fault s ≡ None → left_over (plan_of s) ≡ [] →
        NoLines (IsUnordered (plan_of s)) → NoLine (IsFenceBusyAt (plan_of s)) →
        (t : ℕ) → is_timeline_at s t ≡ false →
        RisesFrom (plan_of s) (initial (plan_of s) t) (chain (plan_of s) t) }
    ensures order { (s : Script) → IsValid s → HasValidBatches s → HasValidSteps s →
        HasRisingLines s → lowering_fault s ≡ None → IsLawful (plan_of s) →
        HasSureOrder (plan_of s) }
{}

/// A lawful plan has no first fault.
pub fn lawful_plans_have_no_fault()
    ensures { (p : Plan) → (fault : OrderFault) → IsLawful p → ¬ IsFirstPlanFault p fault }
{}

/// The list of the edges to a place of a job holds what the four reasons say.
pub fn edges_have_reasons()
    ensures { (p : Plan) → (i j : ℕ) → (k : Stage) →
        (has (edges_at p j k) i ≡ true) ↔ EdgeAt p i j k }
{}

/// In a plan with a sure order, as each lawful plan of a script that was read has one, every edge leads
/// from a job that stands earlier in the slow run.
pub fn edges_agree_with_the_slow_run()
    ensures ordered { (p : Plan) → IsWellFormed p → HasSureOrder p → (i j : ℕ) →
        j < length p.jobs → has (edges_to p j) i ≡ true → comes_earlier p i j ≡ true }
    ensures lawful { (p : Plan) → IsPlan p → IsLawful p → (i j : ℕ) →
        j < length p.jobs → has (edges_to p j) i ≡ true → comes_earlier p i j ≡ true }
{}
