//! Laws over texts with thread blocks. The functions do nothing: their contracts are the laws.
ghost use Rattle.std.specs.Prelude.{ℕ, List, ◌↔◌};
ghost use Rattle.vq_model.specs.declared.script.Script.{Script};
ghost use Rattle.vq_model.specs.Lowering.{plan_of};
ghost use Rattle.vq_model.specs.Machine.{Step, Run};
ghost use Rattle.vq_model.specs.SameScript.{SameButLines};
ghost use Rattle.vq_blocks.specs.Blocks.{Told};
ghost use Rattle.vq_blocks.specs.BlockReading.{Tells};
ghost use Rattle.vq_blocks.specs.Compiled.{script_by_input};
ghost use Rattle.vq_blocks.specs.HostsMachine.{HostsStep, HostsRun};
ghost use Rattle.vq_blocks.specs.HostsRuns.{ComesFrom};

/// Scripts that are the same but for the numbers of their lines have plans with the same runs.
pub fn runs_ignore_lines()
    ensures { (a b : Script) → (steps : List Step) → SameButLines a b → Run (plan_of a) steps ↔ Run (plan_of b) steps }
{}

/// A text with blocks has the runs of its compiled plan: a list of steps among several hosts is a run of the machine
/// with several host threads exactly where it comes from a run of the plan of the script that the text is compiled to.
pub fn hosts_runs_are_those_of_the_compiled_plan()
    ensures { (text : List ℕ) → (told : Told) → (script : Script) → (steps : List HostsStep) → Tells text told →
        SameButLines script (script_by_input told) →
        HostsRun told steps ↔ ComesFrom (plan_of script) told.threads steps }
{}
