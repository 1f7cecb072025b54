//! Laws over canonical texts. The functions do nothing: their contracts are the laws.
ghost use Rattle.std.specs.Prelude.{ℕ, ◌≡◌, ◌++◌, List, [], length, map, Ok, codes};
ghost use Rattle.std.specs.List.{flat_map};
ghost use Rattle.vq_model.specs.declared.statement.Line.{Line};
ghost use Rattle.vq_model.specs.ScriptOfLines.{jobs_of};
ghost use Rattle.vq_model.specs.declared.script.Job.{Job};
ghost use Rattle.vq_model.specs.declared.script.Queue.{Queue};
ghost use Rattle.vq_model.specs.declared.script.Script.{Script};
ghost use Rattle.vq_model.specs.SameScript.{SameButLines, IsRead, IsScript};
ghost use Rattle.vq_model.specs.Canonical.{canonical_lines, canonical_text};
ghost use Rattle.vq_model.specs.LineByLine.{form_of_script};
ghost use Rattle.vq_model.specs.Reading.{StandsFor, read_lines};
ghost use Rattle.vq_model.specs.Text.{lines_of};
ghost use Rattle.vq_model.specs.declared.statement.Form.TheVariants.{Plain};
ghost use Rattle.vq_canonical_laws.specs.CanonicalStatements.{numbered, statements_of_script};
ghost use Rattle.vq_canonical_laws.specs.CanonicalStatements.{lines_from_job, statements_of_job};
ghost use Rattle.vq_model.specs.ValidScripts.{IsUnscheduled};
ghost use Rattle.vq_canonical_laws.specs.AddedJobs.{with_more, MayBeAdded};
ghost use Rattle.vq_canonical_laws.specs.FormatRules.{KeepsRules};

/// Scripts that are the same up to line numbers have the same canonical text.
pub fn canonical_text_ignores_lines()
    ensures { (a b : Script) → SameButLines a b → canonical_text a ≡ canonical_text b }
{}

/// The canonical text of a script that can be written stands for it, up to line numbers.
pub fn canonical_text_reads_back()
    ensures { (s : Script) → IsScript s →
        (read : Script) × StandsFor (canonical_text s) (form_of_script s) read
        × SameButLines read s }
{}

/// The lines of the canonical text of a script without a schedule are its statements, buffers before semaphores, queues
/// and jobs, numbered from 1 on.
pub fn canonical_lines_are_numbered()
    ensures read { (s : Script) → IsScript s → IsUnscheduled s →
        read_lines Plain [] 1 (lines_of (canonical_text s)) ≡ Ok (numbered 1 (statements_of_script s)) }
    ensures counted { (s : Script) → IsUnscheduled s →
        length (statements_of_script s) ≡ length (canonical_lines s) }
{}

/// The lines of a text from the first job on hold the statements of its jobs: of each its first line, the waits, the
/// commands, the signals, the fence and the last line, in this order.
pub fn job_lines_hold_their_statements()
    ensures { (text : List ℕ) → (lines : List Line) → read_lines Plain [] 1 (lines_of text) ≡ Ok lines →
        map (λ line. line.statement) (lines_from_job lines) ≡ flat_map statements_of_job (jobs_of lines) }
{}

/// Scripts that can be written have the same canonical text only where they are the same up to line
/// numbers.
pub fn canonical_text_tells_scripts_apart()
    ensures { (a b : Script) → IsScript a → IsScript b → canonical_text a ≡ canonical_text b →
        SameButLines a b }
{}

/// A script that was read can be written, also where its turns were moved out of it.
pub fn read_scripts_can_be_written()
    ensures { (s : Script) → IsRead s → IsScript s }
{}

/// A script without a schedule that keeps the rules of the format can be written.
pub fn ruled_scripts_can_be_written()
    ensures { (s : Script) → KeepsRules s → IsScript s }
{}

/// A script that can be written can be written with more queues behind its own and more jobs before its own, in
/// the second version of the format, where these have new names, fit, and keep its limits.
pub fn written_scripts_take_queues_and_jobs()
    ensures { (s : Script) → (qs : List Queue) → (jobs : List Job) → IsScript s → IsUnscheduled s →
        MayBeAdded s qs jobs → IsScript (with_more s qs jobs) }
{}

/// A script that can be written can be written in the second version of the format too.
pub fn upgraded_scripts_can_be_written()
    ensures { (s : Script) → IsScript s → IsScript (record s { version = 2 }) }
{}

/// The canonical text of a script's upgrade stands for it, up to line numbers, in the script's form. Where
/// the script is of the first version, this text is the script's own after the line of the second.
pub fn upgraded_texts_read_back()
    ensures back { (s : Script) → IsScript s →
        (read : Script) × StandsFor (canonical_text (record s { version = 2 })) (form_of_script s) read
        × SameButLines read (record s { version = 2 }) }
    ensures text { (s : Script) → s.version ≡ 1 →
        canonical_text (record s { version = 2 }) ≡ codes "version 2\n" ++ canonical_text s }
{}
