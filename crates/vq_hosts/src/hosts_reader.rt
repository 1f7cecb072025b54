//! A reader of texts with blocks, which is fed line by line.
ghost use Rattle.std.specs.Prelude.{◌≡◌, ◌<◌, ◌++◌, ◌∷◌, [], OnOk, cond, false, length};
ghost use Rattle.std.specs.List.{list_all};
ghost use Rattle.vq_model.specs.Text.{is_plain};
ghost use Rattle.vq_blocks.specs.Blocks.{Told, nothing_told, is_of_block, is_outside};
ghost use Rattle.vq_blocks.specs.BlockFaults.{declares_late};
ghost use Rattle.vq_lexer.specs.Words.{texts};
ghost use Rattle.vq_hosts.specs.BlockTests.{late_kind};
ghost use Rattle.vq_hosts.specs.HasTold.{HasTold, HasToldNext, IsJoined};

use crate::block_lines::{many_fault, read_block};
use crate::block_words::is_thread;
use crate::fault::HostsFault;
use crate::joined::{Joined, join_parts};
use crate::origins::push_line;
use crate::threads::Threads;
use std::alloc::{AllocError, Global};
use vq_forms::is_declaration;
use vq_model::statement::{FaultKind, Form, Section};
use vq_script::{LineReader, ScriptFault};

/// The most jobs of the rest.
const MOST_REST_JOBS: usize = 7168;

/// A fault of a line of the rest, where a declaration behind a thread is out of order.
fn late_kind(late: bool, kind: FaultKind) -> FaultKind
    ensures { result ≡ late_kind late kind }
{
    if !matches!(kind, FaultKind::Syntax) && late {
        FaultKind::Order
    } else {
        kind
    }
}

/// Adds a line where a test holds.
fn push_where(lines: &mut Vec<u32>, test: bool, line: u32) -> Result<(), AllocError>
    ensures { OnOk result (lines.new.items ≡ cond test (lines.old.items ++ line ∷ []) lines.old.items) }
{
    if test {
        push_line(lines, line)?;
    }
    Ok(())
}

/// This line where a test holds, and else the other.
fn line_where(test: bool, line: u32, other: u32) -> u32
    ensures { result ≡ cond test line other }
{
    if test { line } else { other }
}

/// A reader of a text with blocks.
#[derive(Drop)]
pub struct HostsReader {
    alloc: Global,
    /// The lines that belong to no block.
    rest: LineReader,
    threads: Threads,
    /// The line that names the version, 0 where none does.
    version_line: u32,
    /// The lines of the rest from its first job on.
    job_lines: Vec<u32>,
}

impl HostsReader {
    ghost use Rattle.std.specs.Prelude.{ℕ, Err};
    ghost use Rattle.vq_model.specs.Text.{words_in};
    ghost use Rattle.vq_forms.specs.Few.{AreCutOff};
    ghost use Rattle.vq_blocks.specs.BlockReading.{read_hosts_words};

    /// A reader that has read no lines.
    pub fn new(alloc: Global) -> HostsReader
        ensures { HasTold nothing_told result }
    {
        HostsReader {
            alloc,
            rest: LineReader::new(alloc, Form::Plain),
            threads: Threads::new(alloc),
            version_line: 0,
            job_lines: Vec::new(alloc),
        }
    }

    /// Whether a line of these words belongs to a block.
    fn is_of_block(&self, words: &[&[u8]]) -> bool
        ensures { (told : Told) → HasTold told self.now → result ≡ is_of_block told (texts words.now) }
    {
        self.threads.inside || (is_outside(self.rest.section()) && is_thread(words))
    }

    /// Whether a line of these words is a declaration behind a thread.
    fn declares_late(&self, words: &[&[u8]]) -> bool
        ensures { (told : Told) → HasTold told self.now → result ≡ declares_late told (texts words.now) }
    {
        if self.threads.queues.is_empty() {
            return false;
        }
        match self.rest.form_of(words) {
            Some(form) => is_declaration(form),
            None => false,
        }
    }

    /// Reads a line that belongs to no block.
    fn read_rest(&mut self, number: u32, words: &[&[u8]], plain: bool) -> Result<(), HostsFault>
        requires plain { plain ≡ list_all (list_all is_plain) (texts words.now) }
        requires some { 0 < length words.now }
        ensures { (told : Told) → HasTold told self.old → is_of_block told (texts words.now) ≡ false →
            HasToldNext told number (texts words.now) result self.new }
    {
        let late = self.declares_late(words);
        let first = self.rest.names_version(words);
        match self.rest.read(number, words, plain) {
            Err(ScriptFault::Memory) => return Err(HostsFault::Memory),
            Err(ScriptFault::At { line, kind }) => {
                return Err(HostsFault::At {
                    line,
                    kind: late_kind(late, kind),
                });
            }
            Ok(()) => {}
        }
        if late {
            return Err(HostsFault::At {
                line: number,
                kind: FaultKind::Order,
            });
        }
        let jobs = self.rest.job_count();
        if jobs > MOST_REST_JOBS {
            return Err(HostsFault::At {
                line: number,
                kind: FaultKind::Limit,
            });
        }
        let begun = self.rest.has_begun();
        push_where(&mut self.job_lines, begun, number)?;
        self.version_line = line_where(first, number, self.version_line);
        Ok(())
    }

    /// Reads the line of this number, whose words these are, as `vq_lexer::find_words` cuts them: it also says whether
    /// all their bytes may stand outside a comment. A line without words says nothing.
    pub fn read(&mut self, number: u32, words: &[&[u8]], plain: bool) -> Result<(), HostsFault>
        requires { plain ≡ list_all (list_all is_plain) (texts words.now) }
        ensures { (told : Told) → HasTold told self.old →
            HasToldNext told number (texts words.now) result self.new }
    {
        if words.is_empty() {
            return Ok(());
        }
        if self.is_of_block(words) {
            read_block(
                self.alloc,
                &self.rest,
                &mut self.threads,
                number,
                words,
                plain,
            )
        } else {
            self.read_rest(number, words, plain)
        }
    }

    /// The first kind of the faults that the next line has, whose words are those of a part: many, of which these are
    /// the first. Where no block is open it is that of a script's line: no line that begins a block, and no declaration,
    /// has as many words.
    pub fn many_fault(&self, words: &[&[u8]], part: &[u8]) -> FaultKind
        requires { AreCutOff (texts words.now) (words_in part.now) }
        ensures { (told : Told) (n : ℕ) → HasTold told self.now →
            read_hosts_words told n (words_in part.now) ≡ Err result }
    {
        if self.threads.inside {
            many_fault(&self.rest, part)
        } else {
            self.rest.many_fault(words, part)
        }
    }

    /// The script of what was told by the lines of the input, and the lines from which those of its canonical text come,
    /// where the text may end here. The line of this number, after the last, is Syntax where a block or a batch is open.
    pub fn finish(self, number: u32) -> Result<Joined, HostsFault>
        ensures { (told : Told) → HasTold told self → IsJoined told number result }
    {
        if self.threads.inside {
            return Err(HostsFault::At {
                line: number,
                kind: FaultKind::Syntax,
            });
        }
        match self.rest.finish_parts(number) {
            Err(ScriptFault::Memory) => Err(HostsFault::Memory),
            Err(ScriptFault::At { line, kind }) => Err(HostsFault::At { line, kind }),
            Ok(parts) => Ok(join_parts(
                self.alloc,
                parts,
                self.threads,
                self.version_line,
                &self.job_lines,
            )?),
        }
    }
}

/// Whether a part of a text is outside of batches.
fn is_outside(section: Section) -> bool
    ensures { result ≡ is_outside section }
{
    matches!(section, Section::Outside)
}
