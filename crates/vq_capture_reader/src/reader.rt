//! A reader that is fed line by line.
ghost use Rattle.std.specs.Prelude.{◌≡◌, IfOk, OnOk};
ghost use Rattle.std.specs.List.{list_all};
ghost use Rattle.vq_model.specs.Text.{is_plain};
ghost use Rattle.vq_lexer.specs.Words.{texts};
ghost use Rattle.vq_capture.specs.Statements.{names_after};
ghost use Rattle.vq_capture_reader.specs.NameLists.{names_of};
ghost use Rattle.vq_capture_reader.specs.Things.{names_only};

use crate::added::Added;
use crate::batches::{OpenBatch, batch_with, opened, part_of};
use crate::names::Names;
use crate::read_line::ReadLine;
use crate::said::Said;
use crate::slots::slots;
use crate::statements::statement;
use crate::word_tests::{first_fault, read_words};
use crate::words::{behind_first, word_at};
use std::alloc::{AllocError, Global};
use vq_capture::capture::{FaultKind, Step};
use vq_capture::form::Form;
use vq_capture::statement::{Access, Kind, Statement};
use vq_capture_forms::form_of;
use vq_capture_things::Things;

/// A reader of a capture, which is fed line by line. It keeps what later lines ask of the lines that it was fed; after
/// an `Err` nothing is said of it.
#[derive(Drop)]
pub struct Reader {
    alloc: Global,
    things: Things,
    names: Names,
    thread: u64,
    batch: Option<OpenBatch>,
    added: Option<Added>,
    /// Room for what the words of a line say.
    said: Vec<Said>,
}

/// The names behind a line that says this.
fn rename(
    alloc: Global,
    names: &mut Names,
    line: u64,
    words: &[&[u8]],
    said: Statement,
) -> Result<(), AllocError>
    ensures { OnOk result
        (names_of names.new ≡ names_after (names_only (names_of names.old)) line (texts words.now) said) }
{
    match said {
        Statement::Declare { kind } => names.declare(alloc, kind, line, word_at(words, 1)),
        Statement::DeclareTimeline { .. } => {
            names.declare(alloc, Kind::Timeline, line, word_at(words, 1))
        }
        Statement::DeclareResource { .. } => {
            names.declare(alloc, Kind::Resource, line, word_at(words, 1))
        }
        Statement::HandOver => names.declare(alloc, Kind::Handed, line, word_at(words, 1)),
        Statement::GoOn { thread } => {
            if thread == line {
                names.declare(alloc, Kind::Thread, line, word_at(words, 1))
            } else {
                Ok(())
            }
        }
        Statement::Forget { .. } => { names.end(alloc, word_at(words, 1)) }
        Statement::SubmitHanded { .. } => { names.end(alloc, word_at(words, 2)) }
        _ => Ok(()),
    }
}

impl Reader {
    ghost use Rattle.std.specs.Prelude.{IfNone, IfSome, Some};
    ghost use Rattle.std.specs.Option.{option_map};
    ghost use Rattle.vq_capture.specs.Context.{is_in_batch, nothing_above};
    ghost use Rattle.vq_capture.specs.LineForms.{form_of};
    ghost use Rattle.vq_capture.specs.Releases.{releases};
    ghost use Rattle.vq_capture.specs.Statements.{batch_after, batch_queue, batch_with, command_of, if_outside};
    ghost use Rattle.vq_capture.specs.Statements.{queue_of, statement};
    ghost use Rattle.vq_capture.specs.Statements.{step_of, thread_after, thread_of, with_line};
    ghost use Rattle.vq_capture.specs.LineFaults.{fault_of, is_disordered, is_out_of_range, is_outside};
    ghost use Rattle.vq_capture.specs.LineFaults.{is_unreleased};
    ghost use Rattle.vq_capture.specs.Reading.{take_words};
    ghost use Rattle.vq_capture_reader.specs.Batches.{opened_of};
    ghost use Rattle.vq_capture_reader.specs.Lines.{above_of, added_of, Adds, step_and_lines, took_of};

    /// A reader that was fed no lines.
    pub fn new(alloc: Global) -> Reader
        ensures { above_of result ≡ nothing_above }
    {
        Reader {
            alloc,
            things: Things::new(alloc),
            names: Names::new(alloc),
            thread: 0,
            batch: None,
            added: None,
            said: Vec::new(alloc),
        }
    }

    /// The step that the last line added, if any; it is given once.
    pub fn take_added(&mut self) -> Option<Added>
        ensures given { option_map step_and_lines result ≡ added_of self.old }
        ensures same { above_of self.new ≡ above_of self.old }
    {
        self.added.take()
    }

    fn is_disordered(&self, form: Form) -> bool
        ensures { result ≡ is_disordered (above_of self.now) form }
    {
        let Some(batch) = self.batch else {
            return false;
        };
        let part = part_of(form);
        part < batch.part || (part == 4 && batch.part == 4)
    }

    fn is_outside(&self, access: Access) -> bool
        ensures { result ≡ is_outside (above_of self.now) access }
    {
        if access.range.length == 0 {
            return true;
        }
        let length = self.things.length_of(access.resource);
        match access.range.offset.checked_add(access.range.length) {
            Some(end) => length < end,
            None => true,
        }
    }

    fn is_out_of_range(&self, said: Statement) -> bool
        ensures { result ≡ is_out_of_range (above_of self.now) said }
    {
        match said {
            Statement::DeclareResource { length } => length == 0,
            Statement::HostAccess { access } => self.is_outside(access),
            Statement::CommandAccess { access, scope: _ } => self.is_outside(access),
            Statement::Transition {
                first: _,
                second: _,
                access,
            } => self.is_outside(access),
            _ => false,
        }
    }

    fn batch_queue(&self) -> Option<u64>
        ensures { result ≡ batch_queue (above_of self.now) }
    {
        match self.batch {
            Some(batch) => Some(batch.queue),
            None => None,
        }
    }

    fn queue_of(&self, said: Statement) -> Option<u64>
        ensures { result ≡ queue_of (above_of self.now) said }
    {
        match said {
            Statement::Submit { queue } => Some(queue),
            Statement::SubmitHanded { queue, handed: _ } => Some(queue),
            Statement::WaitIdle { queue } => Some(queue),
            _ => self.batch_queue(),
        }
    }

    fn is_unreleased(&self, said: Statement, released: &[u64]) -> bool
        requires { released.now ≡ releases (above_of self.now).steps (queue_of (above_of self.now) said) said }
        ensures { result ≡ is_unreleased (above_of self.now) said }
    {
        self.things.is_waiting(said) && released.is_empty()
    }

    fn if_outside(&self, thread: u64) -> Option<u64>
        ensures { result ≡ if_outside (above_of self.now) thread }
    {
        match self.batch {
            Some(_) => None,
            None => Some(thread),
        }
    }

    fn thread_of(&self, said: Statement) -> Option<u64>
        ensures { result ≡ thread_of (above_of self.now) said }
    {
        match said {
            Statement::Declare { .. } => None,
            Statement::DeclareTimeline { .. } => None,
            Statement::DeclareResource { .. } => None,
            Statement::Forget { .. } => None,
            Statement::SubmitHanded { .. } => None,
            Statement::GoOn { thread } => Some(thread),
            _ => self.if_outside(self.thread),
        }
    }

    fn command_of(&self, said: Statement) -> Option<u64>
        ensures { result ≡ command_of (above_of self.now) said }
    {
        match (said, self.batch) {
            (Statement::CommandAccess { .. }, Some(batch)) => Some(batch.command),
            _ => None,
        }
    }

    fn step_of(&self, line: u64, said: Statement) -> Step
        ensures { result ≡ step_of (above_of self.now) line said }
    {
        Step {
            line,
            queue: self.queue_of(said),
            thread: self.thread_of(said),
            command: self.command_of(said),
            statement: said,
        }
    }

    fn thread_after(&self, said: Statement) -> u64
        ensures { result ≡ thread_after (above_of self.now) said }
    {
        match said {
            Statement::GoOn { thread } => thread,
            _ => self.thread,
        }
    }

    fn batch_after(&self, line: u64, form: Form, said: Statement) -> Option<OpenBatch>
        ensures { option_map opened_of result ≡ batch_after (above_of self.now) line form said }
    {
        match said {
            Statement::Submit { queue } => Some(opened(queue, line)),
            Statement::SubmitHanded { queue, handed: _ } => Some(opened(queue, line)),
            Statement::EndBatch => None,
            _ => self.batch_on(line, form),
        }
    }

    fn batch_on(&self, line: u64, form: Form) -> Option<OpenBatch>
        ensures { option_map opened_of result ≡ option_map (batch_with line form) (above_of self.now).batch }
    {
        match self.batch {
            Some(batch) => Some(batch_with(line, form, batch)),
            None => None,
        }
    }

    /// Reads a line of a form.
    fn read_line(&mut self, line: u64, form: Form, words: &[&[u8]]) -> Result<ReadLine, AllocError>
        requires { form_of (is_in_batch (above_of self.old)) (texts words.now) ≡ Some form }
        ensures same { above_of self.new ≡ above_of self.old }
        ensures fault { IfOk result (λ read. read.fault ≡ fault_of (above_of self.old) line form (texts words.now)) }
        ensures said { IfOk result (λ read. read.said ≡ statement (above_of self.old) line form (texts words.now)) }
        ensures released { IfOk result (λ read. read.released.items
            ≡ releases (above_of self.old).steps (queue_of (above_of self.old) read.said) read.said) }
    {
        let behind = behind_first(words);
        let tests = read_words(
            &self.names,
            self.thread,
            slots(form),
            behind,
            &mut self.said,
        )?;
        let said = statement(line, form, self.said.as_slice());
        let released = self.things.releases(self.alloc, self.queue_of(said), said)?;
        let disordered = self.is_disordered(form);
        let far = self.is_out_of_range(said);
        let unreleased = self.is_unreleased(said, released.as_slice());
        Ok(ReadLine {
            said,
            released,
            fault: first_fault(tests, disordered, far, unreleased),
        })
    }

    /// Adds a line of a form that says this, which has no fault.
    #[tactic(auto, using(crate::proofs::NamesAlone::same_names))]
    fn add(
        &mut self,
        line: u64,
        form: Form,
        words: &[&[u8]],
        said: Statement,
        released: Vec<u64>,
    ) -> Result<(), AllocError>
        requires said { said ≡ statement (above_of self.old) line form (texts words.now) }
        requires released { released.items
            ≡ releases (above_of self.old).steps (queue_of (above_of self.old) said) said }
        ensures line { OnOk result
            (above_of self.new ≡ with_line (above_of self.old) line form (texts words.now)) }
        ensures step { OnOk result
            (Adds (added_of self.new) (above_of self.old).steps (above_of self.new).steps) }
    {
        let step = self.step_of(line, said);
        let thread = self.thread_after(said);
        let batch = self.batch_after(line, form, said);
        rename(self.alloc, &mut self.names, line, words, said)?;
        self.things.add(self.alloc, step)?;
        self.added = Some(Added { step, released });
        self.thread = thread;
        self.batch = batch;
        Ok(())
    }

    /// Takes the next line, whose number and words these are, as `vq_lexer::find_words` cuts them: it also says whether
    /// all their bytes may stand outside a comment. It gives the line's first fault, if it has one, and is then as it
    /// was. The error is want of memory, or that the number isn't above that of the last line that added a step.
    pub fn take(
        &mut self,
        line: u64,
        words: &[&[u8]],
        plain: bool,
    ) -> Result<Option<FaultKind>, AllocError>
        requires { plain ≡ list_all (list_all is_plain) (texts words.now) }
        ensures takes { IfOk result (λ fault.
            take_words (above_of self.old) line (texts words.now) ≡ took_of fault (above_of self.new)) }
        ensures faulty { IfOk result (λ fault. IfSome fault (λ _. above_of self.new ≡ above_of self.old)) }
        ensures added { IfOk result (λ fault. IfNone fault
            (Adds (added_of self.new) (above_of self.old).steps (above_of self.new).steps)) }
    {
        self.added = None;
        if words.is_empty() {
            return Ok(None);
        }
        if !plain {
            return Ok(Some(FaultKind::Syntax));
        }
        let Some(form) = form_of(self.batch.is_some(), words) else {
            return Ok(Some(FaultKind::Syntax));
        };
        let read = self.read_line(line, form, words)?;
        if let Some(kind) = read.fault {
            return Ok(Some(kind));
        }
        self.add(line, form, words, read.said, read.released)?;
        Ok(None)
    }
}
