//! Laws over texts and the scripts that they stand for. The functions do nothing: their contracts are
//! the laws.
ghost use Rattle.std.specs.Prelude.{◌≤◌, ◌↔◌, ℕ, List, [], length, ◌≡◌, false, None, Some, Ok, Err, All};
ghost use Rattle.std.specs.List.{slice_get};
ghost use Rattle.vq_model.specs.Text.{lines_of};
ghost use Rattle.vq_model.specs.declared.script.Script.{Script};
ghost use Rattle.vq_model.specs.declared.script.Batch.{Batch};
ghost use Rattle.vq_model.specs.declared.script.Job.TheVariants.{Batch as BatchJob};
ghost use Rattle.vq_model.specs.SameScript.{IsScript, IsRead};
ghost use Rattle.vq_model.specs.ValidScripts.{IsValid, HasValidBatches, HasValidSteps, HasValidTurns, HasRisingLines};
ghost use Rattle.vq_model.specs.ValidScripts.{IsUnscheduled};
ghost use Rattle.vq_model.specs.LineByLine.{form_of_script};
ghost use Rattle.vq_model.specs.declared.statement.Form.TheVariants.{Plain};
ghost use Rattle.vq_model.specs.declared.statement.Form.{Form};
ghost use Rattle.vq_model.specs.declared.statement.Line.{Line};
ghost use Rattle.vq_model.specs.declared.statement.Statement.{Statement};
ghost use Rattle.vq_model.specs.LineFaults.{fault_of, ends_early};
ghost use Rattle.vq_model.specs.Meaning.{meaning};
ghost use Rattle.vq_model.specs.declared.statement.FaultKind.{FaultKind};
ghost use Rattle.vq_model.specs.Reading.{read_lines, StandsFor};
ghost use Rattle.vq_model.specs.LineByLine.{HaveNoFault, IsFaultless, IsFirstFaultOf};
ghost use Rattle.vq_model.specs.ScriptOfLines.{script_of};

/// A text has no more lines than bytes.
pub fn lines_are_few()
    ensures { (text : List ℕ) → length (lines_of text) ≤ length text }
{}

/// A script that can be written is valid: it is of a version and stays within that version's limits,
/// its signals name semaphores that exist, its commands fit their buffers, its batches and host steps
/// name what exists, of the kinds that their places need, its waits hold back what their version
/// lets them, and the turns of its schedule are taken by its actors.
pub fn scripts_are_valid()
    ensures valid { (s : Script) → IsScript s → IsValid s }
    ensures batches { (s : Script) → IsScript s → HasValidBatches s }
    ensures steps { (s : Script) → IsScript s → HasValidSteps s }
    ensures turns { (s : Script) → IsScript s → HasValidTurns s }
{}

/// In a script of the first version each wait holds back the whole of its batch.
pub fn first_version_has_whole_waits()
    ensures { (s : Script) → IsScript s → s.version ≡ 1 → (j : ℕ) → (b : Batch) →
        slice_get s.jobs j ≡ Some (BatchJob b) → All (λ m. m.from ≡ 1) b.waits }
{}

/// A script that was read is valid, also where its turns were moved out of it, and its lines rise in
/// its order.
pub fn read_scripts_are_valid()
    ensures valid { (s : Script) → IsRead s → IsValid s }
    ensures batches { (s : Script) → IsRead s → HasValidBatches s }
    ensures steps { (s : Script) → IsRead s → HasValidSteps s }
    ensures turns { (s : Script) → IsRead s → HasValidTurns s }
    ensures rise { (s : Script) → IsRead s → HasRisingLines s }
{}

/// A script that a text stands for has a schedule exactly where the text's form asks for one. In the
/// form without a schedule it has no turns.
pub fn texts_tell_their_form()
    ensures form { (text : List ℕ) → (form : Form) → (s : Script) → StandsFor text form s →
        form_of_script s ≡ form }
    ensures plain { (text : List ℕ) → (s : Script) → StandsFor text Plain s → IsUnscheduled s }
{}

/// A line without a fault has a meaning.
pub fn lines_without_fault_have_a_meaning()
    ensures { (form : Form) → (before : List Line) → (words : List (List ℕ)) →
        fault_of form before words ≡ None →
        (s : Statement) × (meaning form before words ≡ Some s) }
{}

/// The first fault of some lines is what reading them gives, and nothing else: no line before it has a
/// fault, and the kind is the first of its line. Where no line has one, and the text doesn't end too
/// early, reading gives the statements.
pub fn reading_gives_the_first_fault()
    ensures fault { (form : Form) → (before : List Line) → (first : ℕ) →
        (lines : List (List ℕ)) → (n : ℕ) → (kind : FaultKind) →
        (read_lines form before first lines ≡ Err (n, kind))
        ↔ IsFirstFaultOf form before first lines n kind }
    ensures none { (form : Form) → (before : List Line) → (first : ℕ) →
        (lines : List (List ℕ)) → (statements : List Line) →
        (read_lines form before first lines ≡ Ok statements)
        ↔ (HaveNoFault form before first lines statements
        × (ends_early form statements ≡ false)) }
{}

/// A text without a faulty line stands for the script of its statements, and a text that stands for a
/// script has no faulty line.
pub fn faultless_texts_stand_for_scripts()
    ensures stands { (text : List ℕ) → (form : Form) → (statements : List Line) →
        IsFaultless form (lines_of text) statements → StandsFor text form (script_of statements) }
    ensures faultless { (text : List ℕ) → (form : Form) → (s : Script) → StandsFor text form s →
        (statements : List Line) × IsFaultless form (lines_of text) statements
        × (script_of statements ≡ s) }
{}
