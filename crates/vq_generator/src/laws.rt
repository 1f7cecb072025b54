//! Laws over generated scripts. The functions do nothing: their contracts are the laws.
ghost use Rattle.std.specs.Prelude.{ℕ, ◌≤◌, length};
ghost use Rattle.vq_model.specs.SameScript.{IsScript, SameButLines};
ghost use Rattle.vq_model.specs.declared.script.Script.{Script};
ghost use Rattle.vq_model.specs.declared.statement.Form.TheVariants.{Plain};
ghost use Rattle.vq_model.specs.Canonical.{canonical_text};
ghost use Rattle.vq_model.specs.Reading.{StandsFor};
ghost use Rattle.vq_generator.specs.Generated.{generated_script};

/// Each generated script can be written.
pub fn generated_scripts_can_be_written()
    ensures { (n : ℕ) → 1 ≤ n → n ≤ 500 → IsScript (generated_script n) }
{}

/// The canonical text of a generated script stands for it, up to line numbers, as a text without a
/// schedule.
pub fn generated_texts_read_back()
    ensures { (n : ℕ) → 1 ≤ n → n ≤ 500 →
        (read : Script) × StandsFor (canonical_text (generated_script n)) Plain read
        × SameButLines read (generated_script n) }
{}

/// The text of each generated script is far shorter than an input may be.
pub fn generated_texts_are_short()
    ensures { (n : ℕ) → n ≤ 500 → length (canonical_text (generated_script n)) ≤ 4194304 }
{}
