//! A reader that is fed line by line.
ghost use Rattle.std.specs.Prelude.{◌≡◌, ◌≤◌, ◌&&◌, List, []};
ghost use Rattle.vq_model.specs.Meaning.{matches, form_of};
ghost use Rattle.vq_model.specs.declared.statement.LineForm.TheVariants.{VersionLine};
ghost use Rattle.vq_model.specs.declared.statement.Line.{Line};
ghost use Rattle.std.specs.List.{list_all};
ghost use Rattle.vq_model.specs.Text.{is_plain};
ghost use Rattle.vq_model.specs.Reading.{read_lines};
ghost use Rattle.vq_script.specs.Holds.{Keeps, are_none, open_so_far};
ghost use Rattle.vq_forms.specs.OpenWords.{opens};
ghost use Rattle.vq_script.specs.Outcomes.{Gives};
ghost use Rattle.vq_script.specs.Parts.{GivesParts};
ghost use Rattle.vq_script.specs.Reads.{Takes, Reads, script_from, HasRead, HasReadNext};
ghost use Rattle.vq_script.specs.SaidLines.{Fits, Stands};
ghost use Rattle.vq_lexer.specs.Words.{texts};

use crate::fault::ScriptFault;
use crate::known::Known;
use crate::line_faults::said_by;
use crate::long_line::many_fault;
use crate::parts::ScriptParts;
use std::alloc::Global;
use vq_forms::{Token, form_of, is_version};
use vq_model::script::Script;
use vq_model::statement::{FaultKind, Form, LineForm, Section};

/// Reads a line of a form, whose words these are. Where the form is known, only its own tests are left of it.
#[inline(always)]
fn read_formed(
    alloc: Global,
    known: &mut Known,
    number: u32,
    form: LineForm,
    words: &[&[u8]],
) -> Result<(), ScriptFault>
    requires fits { Fits form words.now }
    requires stands { Stands form known.old.scheduled (open_so_far known.old.batch) }
    ensures { (lines : List Line) → Keeps lines known.old →
        Takes lines number (form, opens form words.now) result known.new }
{
    match said_by(known, form, words) {
        Ok(said) => {
            known.add(alloc, number, said)?;
            known.first = false;
            Ok(())
        }
        Err(kind) => Err(ScriptFault::At { line: number, kind }),
    }
}

/// Reads a line of any form.
#[inline(never)]
fn read_any(
    alloc: Global,
    known: &mut Known,
    number: u32,
    form: LineForm,
    words: &[&[u8]],
) -> Result<(), ScriptFault>
    requires fits { Fits form words.now }
    requires stands { Stands form known.old.scheduled (open_so_far known.old.batch) }
    ensures { (lines : List Line) → Keeps lines known.old →
        Takes lines number (form, opens form words.now) result known.new }
{
    read_formed(alloc, known, number, form, words)
}

/// Reads a line of a form, whose words these are. Most lines have one of a few forms.
#[inline(always)]
fn read_open(
    alloc: Global,
    known: &mut Known,
    number: u32,
    form: LineForm,
    words: &[&[u8]],
) -> Result<(), ScriptFault>
    requires fits { Fits form words.now }
    requires stands { Stands form known.old.scheduled (open_so_far known.old.batch) }
    ensures { (lines : List Line) → Keeps lines known.old →
        Takes lines number (form, opens form words.now) result known.new }
{
    match form {
        LineForm::WaitTimelineLine => {
            read_formed(alloc, known, number, LineForm::WaitTimelineLine, words)
        }
        LineForm::SignalTimelineLine => {
            read_formed(alloc, known, number, LineForm::SignalTimelineLine, words)
        }
        LineForm::TurnLine => read_formed(alloc, known, number, LineForm::TurnLine, words),
        LineForm::EndLine => read_formed(alloc, known, number, LineForm::EndLine, words),
        LineForm::SubmitLine => read_formed(alloc, known, number, LineForm::SubmitLine, words),
        LineForm::FillLine => read_formed(alloc, known, number, LineForm::FillLine, words),
        LineForm::CopyLine => read_formed(alloc, known, number, LineForm::CopyLine, words),
        LineForm::HeldTimelineLine => read_formed(
            alloc,
            known,
            number,
            LineForm::HeldTimelineLine,
            words,
        ),
        _ => read_any(alloc, known, number, form, words),
    }
}

/// Whether words name the version, as the first line with words may.
fn names_version(known: &Known, words: &[&[u8]]) -> bool
    ensures { result ≡ (known.now.first && matches (texts words.now) VersionLine) }
{
    known.first && is_version(words)
}

/// Reads the words of a line, whose bytes may stand outside a comment or not. A line without words says nothing.
fn read_words(
    alloc: Global,
    form: Form,
    known: &mut Known,
    number: u32,
    words: &[&[u8]],
    plain: bool,
) -> Result<(), ScriptFault>
    requires { plain ≡ list_all (list_all is_plain) (texts words.now) }
    ensures { (lines : List Line) → Keeps lines known.old →
        Reads form lines number (texts words.now) result known.new }
{
    if words.is_empty() {
        return Ok(());
    }
    if !plain {
        return Err(ScriptFault::At {
            line: number,
            kind: FaultKind::Syntax,
        });
    }
    if names_version(known, words) {
        *known = Known::new(alloc, 2, false);
        return Ok(());
    }
    let Some(found) = form_of(form, known.version, known.section(), words) else {
        return Err(ScriptFault::At {
            line: number,
            kind: FaultKind::Syntax,
        });
    };
    read_open(alloc, known, number, found, words)
}

/// The parts of the script, where the text may end here. The line after the last is Syntax where a batch is
/// open, or where the form asks for a schedule and none has begun.
fn finish(form: Form, known: Known, number: u32) -> Result<ScriptParts, ScriptFault>
    ensures { (lines : List Line) → Keeps lines known →
        GivesParts result (script_from (read_lines form lines number [])) }
{
    match (form, known.section()) {
        (_, Section::InBatch) => Err(ScriptFault::At {
            line: number,
            kind: FaultKind::Syntax,
        }),
        (Form::Scheduled, Section::Outside) => Err(ScriptFault::At {
            line: number,
            kind: FaultKind::Syntax,
        }),
        _ => Ok(known.into_parts()),
    }
}

/// A reader of a script in a form, which is fed line by line: so a text may have other lines between those of the
/// script. It has read the lines that it was fed; after an `Err` nothing is said of it.
#[derive(Drop)]
pub struct LineReader {
    alloc: Global,
    form: Form,
    known: Known,
}

impl LineReader {
    ghost use Rattle.vq_model.specs.Context.{section, is_declared, number_at, has_begun, queues, count, is_job};
    ghost use Rattle.vq_model.specs.Forms.{TimelineName};
    ghost use Rattle.std.specs.Prelude.{length, ℕ, Err};
    ghost use Rattle.vq_model.specs.Reading.{read_statement};
    ghost use Rattle.vq_model.specs.Text.{words_in};
    ghost use Rattle.vq_forms.specs.Few.{AreCutOff};

    /// A reader that has read no lines.
    pub fn new(alloc: Global, form: Form) -> LineReader
        ensures { HasRead form [] result }
    {
        LineReader {
            alloc,
            form,
            known: Known::new(alloc, 1, true),
        }
    }

    /// Reads the line of this number, whose words these are, as `vq_lexer::find_words` cuts them: it also says whether
    /// all their bytes may stand outside a comment. A line without words says nothing.
    pub fn read(&mut self, number: u32, words: &[&[u8]], plain: bool) -> Result<(), ScriptFault>
        requires { plain ≡ list_all (list_all is_plain) (texts words.now) }
        ensures { (form : Form) (lines : List Line) → HasRead form lines self.old →
            HasReadNext form lines number (texts words.now) result self.new }
    {
        read_words(self.alloc, self.form, &mut self.known, number, words, plain)
    }

    /// The first kind of the faults that the next line has, whose words are those of a part: many, of which these are
    /// the first.
    pub fn many_fault(&self, words: &[&[u8]], part: &[u8]) -> FaultKind
        requires { AreCutOff (texts words.now) (words_in part.now) }
        ensures { (form : Form) (lines : List Line) (n : ℕ) → HasRead form lines self.now →
            read_statement form lines n (words_in part.now) ≡ Err result }
    {
        many_fault(self.form, &self.known, words, part)
    }

    /// The part of the text in which the next line stands.
    pub fn section(&self) -> Section
        ensures { (form : Form) (lines : List Line) → HasRead form lines self.now → result ≡ section lines }
    {
        self.known.section()
    }

    /// The form that these words have on the next line.
    pub fn form_of(&self, words: &[&[u8]]) -> Option<LineForm>
        ensures { (form : Form) (lines : List Line) → HasRead form lines self.now →
            result ≡ form_of form lines (texts words.now) }
    {
        if names_version(&self.known, words) {
            return Some(LineForm::VersionLine);
        }
        form_of(self.form, self.known.version, self.known.section(), words)
    }

    /// Whether these words name the version: the first line with words may.
    pub fn names_version(&self, words: &[&[u8]]) -> bool
        ensures { (form : Form) (lines : List Line) → HasRead form lines self.now →
            result ≡ (are_none lines && matches (texts words.now) VersionLine) }
    {
        names_version(&self.known, words)
    }

    /// The number of the timeline of a name.
    pub fn timeline(&self, name: &[u8]) -> Option<u32>
        ensures { (form : Form) (lines : List Line) → HasRead form lines self.now →
            result ≡ number_at lines TimelineName name.now }
    {
        self.known.number_of(Token::TimelineToken, name)
    }

    /// Whether something that is declared has this name.
    pub fn is_declared(&self, name: &[u8]) -> bool
        ensures { (form : Form) (lines : List Line) → HasRead form lines self.now →
            result ≡ is_declared lines name.now }
    {
        self.known.is_declared(name)
    }

    /// Whether a batch has begun, or a step of the host has come.
    pub fn has_begun(&self) -> bool
        ensures { (form : Form) (lines : List Line) → HasRead form lines self.now → result ≡ has_begun lines }
    {
        self.known.has_begun()
    }

    /// How many queues are declared.
    pub fn queue_count(&self) -> usize
        ensures few { result ≤ 16 }
        ensures exact { (form : Form) (lines : List Line) → HasRead form lines self.now →
            result ≡ length (queues lines) }
    {
        self.known.queues.len()
    }

    /// How many batches have begun and steps of the host have come.
    pub fn job_count(&self) -> usize
        ensures { (form : Form) (lines : List Line) → HasRead form lines self.now →
            result ≡ count is_job lines }
    {
        self.known.job_count()
    }

    /// The parts of the script of the lines that were read, where the text may end here. The line of this number, after
    /// the last, is Syntax where a batch is open, or where the form asks for a schedule and none has begun.
    pub fn finish_parts(self, number: u32) -> Result<ScriptParts, ScriptFault>
        ensures { (form : Form) (lines : List Line) → HasRead form lines self →
            GivesParts result (script_from (read_lines form lines number [])) }
    {
        finish(self.form, self.known, number)
    }

    /// The script of the lines that were read, where the text may end here.
    pub fn finish(self, number: u32) -> Result<Script, ScriptFault>
        ensures { (form : Form) (lines : List Line) → HasRead form lines self →
            Gives result (script_from (read_lines form lines number [])) }
    {
        match finish(self.form, self.known, number) {
            Ok(parts) => Ok(parts.into_script()),
            Err(fault) => Err(fault),
        }
    }
}
