//! Laws over texts with thread blocks and the scripts that they are compiled to. The functions do nothing: their
//! contracts are the laws.
ghost use Rattle.std.specs.Prelude.{ℕ, List, [], ◌++◌, length, ◌≡◌, Ok};
ghost use Rattle.vq_model.specs.declared.script.Script.{Script};
ghost use Rattle.vq_model.specs.declared.statement.Form.TheVariants.{Plain};
ghost use Rattle.vq_model.specs.declared.statement.Line.{Line};
ghost use Rattle.vq_model.specs.Canonical.{canonical_lines, canonical_text};
ghost use Rattle.vq_model.specs.Reading.{StandsFor, read_lines};
ghost use Rattle.vq_model.specs.SameScript.{IsScript, SameButLines};
ghost use Rattle.vq_model.specs.ScriptOfLines.{script_of};
ghost use Rattle.vq_model.specs.Text.{lines_of};
ghost use Rattle.vq_blocks.specs.Blocks.{Told, nothing_told};
ghost use Rattle.vq_blocks.specs.BlockReading.{Tells};
ghost use Rattle.vq_blocks.specs.Compiled.{job_lines_in, origins, script_by_input};
ghost use Rattle.vq_block_laws.specs.Renumbered.{lines_with_numbers, with_numbers};
ghost use Rattle.vq_block_laws.specs.WithoutBlocks.{lines_without, without_blocks};

/// With the lines of its blocks emptied, a text stands for the script of the rest, line for line.
pub fn rest_stands()
    ensures lines { (text : List ℕ) →
        lines_of (without_blocks text) ≡ lines_without nothing_told 1 (lines_of text) }
    ensures read { (text : List ℕ) → (told : Told) → Tells text told →
        read_lines Plain [] 1 (lines_of (without_blocks text)) ≡ Ok told.rest }
    ensures stands { (text : List ℕ) → (told : Told) → Tells text told →
        StandsFor (without_blocks text) Plain (script_of told.rest) }
{}

/// The script that a text with blocks is compiled to can be written.
pub fn compiled_scripts_can_be_written()
    ensures { (text : List ℕ) → (told : Told) → Tells text told → IsScript (script_by_input told) }
{}

/// The canonical text of that script stands for it, up to line numbers, and has no schedule.
pub fn compiled_texts_read_back()
    ensures { (text : List ℕ) → (told : Told) → Tells text told →
        (read : Script) × StandsFor (canonical_text (script_by_input told)) Plain read
        × SameButLines read (script_by_input told) }
{}

/// Each line of that text comes from the line of the input that `origins` says: with these numbers in place of its
/// own, the script for which the text stands is the script with the numbers of the input, and the last lines are those
/// of the rest from the first job on, the last line of each batch too. There is one for each line.
pub fn compiled_lines_come_from_the_input()
    ensures numbers { (text : List ℕ) → (told : Told) → Tells text told → (script : Script) →
        StandsFor (canonical_text (script_by_input told)) Plain script →
        with_numbers (origins told) script ≡ script_by_input told }
    ensures lines { (text : List ℕ) → (told : Told) → Tells text told → (lines : List Line) →
        read_lines Plain [] 1 (lines_of (canonical_text (script_by_input told))) ≡ Ok lines →
        (front : List Line) × (lines_with_numbers (origins told) lines ≡ front ++ job_lines_in told.rest) }
    ensures counted { (text : List ℕ) → (told : Told) → Tells text told →
        length (origins told) ≡ length (canonical_lines (script_by_input told)) }
{}
