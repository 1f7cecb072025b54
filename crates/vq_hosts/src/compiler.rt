//! A text with blocks, compiled to a script.
ghost use Rattle.std.specs.Prelude.{◌≡◌, ◌<◌, ◌-◌, ◌^◌, length, IfOk, IfErr};
ghost use Rattle.vq_model.specs.declared.script.Script.{Script as ScriptSpec};
ghost use Rattle.vq_model.specs.Canonical.{canonical_text};
ghost use Rattle.vq_model.specs.Reading.{StandsFor};
ghost use Rattle.vq_model.specs.Text.{lines_of, words_of};
ghost use Rattle.vq_model.specs.declared.statement.Form.TheVariants.{Plain};
ghost use Rattle.vq_blocks.specs.Blocks.{Told};
ghost use Rattle.vq_blocks.specs.Compiled.{IsCompiled};
ghost use Rattle.vq_hosts.specs.HasTold.{HasTold, HasToldNext};
ghost use Rattle.vq_hosts.specs.Outcomes.{IsFirst};

use crate::fault::HostsFault;
use crate::hosts_reader::HostsReader;
use std::alloc::Global;
use vq_forms::{are_plain, find_few, without_comment};
use vq_lexer::{find_words, next_line};
use vq_model::script::Script;
use vq_model::statement::Form;
use vq_script::{ScriptFault, is_short, parse, print};

/// The most bytes of a line that is cut into all its words at once. A list of them takes many times the bytes.
const SHORT: usize = 4096;

/// A compiled script, and for each line of its canonical text the line of the input from which it comes; 0 for the line
/// that names the version, where the input has none.
#[derive(Drop)]
pub struct Compiled {
    pub script: Script,
    pub lines: Vec<u32>,
}

/// The script of a script's canonical text: the same, with the lines of that text. A text that isn't short is want of
/// memory.
fn renumbered(alloc: Global, script: &Script) -> Result<Script, HostsFault>
    requires { (read : ScriptSpec) × StandsFor (canonical_text script.now) Plain read }
    ensures stands { IfOk result (λ read. StandsFor (canonical_text script.now) Plain read) }
    ensures memory { IfErr result (λ fault. fault ≡ HostsFault.Memory) }
{
    let text = print(alloc, script)?;
    if !is_short(&text) {
        return Err(HostsFault::Memory);
    }
    match parse(alloc, &text, Form::Plain) {
        Ok(read) => Ok(read),
        Err(ScriptFault::Memory) => Err(HostsFault::Memory),
        Err(ScriptFault::At { .. }) => unreachable!(),
    }
}

/// Reads a line that may be long. Of its words no more are kept than a line without a fault has.
fn read_long<'a>(
    reader: &mut HostsReader,
    number: u32,
    line: &'a [u8],
    words: &mut Vec<&'a [u8]>,
) -> Result<(), HostsFault>
    ensures { (told : Told) → HasTold told reader.old →
        HasToldNext told number (words_of line.now) result reader.new }
{
    let part = without_comment(line);
    if find_few(part, words)? {
        return reader.read(number, words, are_plain(part));
    }
    let kind = reader.many_fault(words, part);
    Err(HostsFault::At { line: number, kind })
}

/// Reads a line. Its words take the place of those of the line before.
fn read_line<'a>(
    reader: &mut HostsReader,
    number: u32,
    line: &'a [u8],
    words: &mut Vec<&'a [u8]>,
) -> Result<(), HostsFault>
    ensures { (told : Told) → HasTold told reader.old →
        HasToldNext told number (words_of line.now) result reader.new }
{
    if line.len() > SHORT {
        return read_long(reader, number, line, words);
    }
    let plain = find_words(line, words)?;
    reader.read(number, words, plain)
}

/// Compiles a text of a script whose host threads stand in blocks. It has fewer than 2^32 - 1 lines.
///
/// Lines and words are those of scripts (`vq_script::parse`). Between the last declaration and the first job the text may
/// have blocks: `thread NAME`, lines `signal TIMELINE VALUE` and `wait TIMELINE VALUE TIMELINE VALUE ..`, and `end`. Each
/// thread becomes a threaded queue behind those that are declared, and each of its steps a batch without commands on it,
/// with a wait for each pair, or with one signal; the batches of the threads come first, then the jobs of the rest. The
/// script is of version 2, and its lines are those of its canonical text.
///
/// Queues and threads are 16 together at most, steps of threads 1,024, pairs of a step 16, and jobs of the rest 7,168.
///
/// # Errors
///
/// `At` is the first line with a fault and the first kind of that line's faults, in the order of `FaultKind`; the line
/// after the last is `Syntax` where a block or a batch is open. `Memory` comes where memory runs out.
pub fn compile(alloc: Global, bytes: &[u8]) -> Result<Compiled, HostsFault>
    requires { length (lines_of bytes.now) < 2 ^ 32 - 1 }
    ensures compiled { IfOk result (λ c. IsCompiled bytes.now c.script c.lines.items) }
    ensures fault { IfErr result (IsFirst bytes.now) }
{
    let mut reader = HostsReader::new(alloc);
    let mut words = Vec::new(alloc);
    let mut number: u32 = 1;
    let mut rest = bytes;
    while let Some((line, after)) = next_line(rest) {
        read_line(&mut reader, number, line, &mut words)?;
        rest = after;
        number += 1;
    }
    let joined = reader.finish(number)?;
    let script = renumbered(alloc, &joined.script)?;
    Ok(Compiled {
        script,
        lines: joined.lines,
    })
}
