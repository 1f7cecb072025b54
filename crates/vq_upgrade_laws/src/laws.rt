//! Laws over scripts of another version. The functions do nothing: their contracts are the laws.
//! None of them asks whether the script keeps the rules of a version: nothing behind its text does.
ghost use Rattle.std.specs.Prelude.{ℕ, List, ◌≡◌, ◌↔◌};
ghost use Rattle.vq_model.specs.Checks.{IsFirstPlanFault, IsLawful};
ghost use Rattle.vq_model.specs.declared.plan.OrderFault.{OrderFault};
ghost use Rattle.vq_model.specs.declared.script.Script.{Script};
ghost use Rattle.vq_model.specs.Edges.{Stage, edges_at};
ghost use Rattle.vq_model.specs.HappensBefore.{HappensBeforeAt};
ghost use Rattle.vq_model.specs.Lowering.{plan_of};
ghost use Rattle.vq_model.specs.LoweringFaults.{lowering_fault};
ghost use Rattle.vq_model.specs.Machine.{Step, Run, state_after};
ghost use Rattle.vq_model.specs.Outputs.{IsOutput};
ghost use Rattle.vq_model.specs.Plan.{Plan};
ghost use Rattle.vq_model.specs.Sure.{IsSureAt};
ghost use Rattle.vq_upgrade_laws.specs.Upgrades.{of_version, plan_of_version};

/// A script has the same fault of lowering in each version, and the same plan in all but the script that it keeps.
pub fn plans_ignore_versions()
    ensures fault { (v : ℕ) → (s : Script) → lowering_fault (of_version v s) ≡ lowering_fault s }
    ensures plan { (v : ℕ) → (s : Script) → plan_of (of_version v s) ≡ plan_of_version v (plan_of s) }
{}

/// The edges of a plan, what happens before what and what is sure don't depend on the version of its script, and
/// neither do its faults.
pub fn order_ignores_versions()
    ensures edges { (v : ℕ) → (p : Plan) → (j : ℕ) → (k : Stage) →
        edges_at (plan_of_version v p) j k ≡ edges_at p j k }
    ensures before { (v : ℕ) → (p : Plan) → (i j : ℕ) → (k : Stage) →
        HappensBeforeAt (plan_of_version v p) i j k ↔ HappensBeforeAt p i j k }
    ensures sure { (v : ℕ) → (p : Plan) → (e j : ℕ) → (k : Stage) →
        IsSureAt (plan_of_version v p) e j k ↔ IsSureAt p e j k }
    ensures faults { (v : ℕ) → (p : Plan) → (fault : OrderFault) →
        IsFirstPlanFault (plan_of_version v p) fault ↔ IsFirstPlanFault p fault }
    ensures lawful { (v : ℕ) → (p : Plan) → IsLawful (plan_of_version v p) ↔ IsLawful p }
{}

/// The runs of a plan, the states that they lead to and its outputs don't depend on the version of its script.
pub fn runs_ignore_versions()
    ensures runs { (v : ℕ) → (p : Plan) → (steps : List Step) →
        Run (plan_of_version v p) steps ↔ Run p steps }
    ensures states { (v : ℕ) → (p : Plan) → (steps : List Step) →
        state_after (plan_of_version v p) steps ≡ state_after p steps }
    ensures outputs { (v : ℕ) → (p : Plan) → (text : List ℕ) →
        IsOutput (plan_of_version v p) text ↔ IsOutput p text }
{}
