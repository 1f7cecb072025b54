//! A text, read line by line.
ghost use Rattle.std.specs.Prelude.{◌≡◌, ◌<◌, ◌-◌, ◌^◌, IsTrue, nat_lt, List, length, IfOk};
ghost use Rattle.std.specs.Prelude.{IfErr};
ghost use Rattle.vq_model.specs.declared.statement.Line.{Line};
ghost use Rattle.vq_model.specs.Text.{lines_of, words_of};
ghost use Rattle.vq_model.specs.Reading.{read_script, StandsFor};
ghost use Rattle.vq_script.specs.Outcomes.{Gives, IsFirst};
ghost use Rattle.vq_script.specs.Reads.{HasRead, HasReadNext};

use crate::fault::ScriptFault;
use crate::line_reader::LineReader;
use std::alloc::Global;
use vq_forms::{are_plain, find_few, without_comment};
use vq_lexer::{find_words, next_line};
use vq_model::script::Script;
use vq_model::statement::Form;

/// The most bytes of a line that is cut into all its words at once. A list of them takes many times the bytes.
const SHORT: usize = 4096;

/// Reads a line that may be long. Of its words no more are kept than a line without a fault has.
fn read_long<'a>(
    reader: &mut LineReader,
    number: u32,
    line: &'a [u8],
    words: &mut Vec<&'a [u8]>,
) -> Result<(), ScriptFault>
    ensures { (form : Form) (lines : List Line) → HasRead form lines reader.old →
        HasReadNext form lines number (words_of line.now) result reader.new }
{
    let part = without_comment(line);
    if find_few(part, words)? {
        return reader.read(number, words, are_plain(part));
    }
    let kind = reader.many_fault(words, part);
    Err(ScriptFault::At { line: number, kind })
}

/// Reads a line. Its words take the place of those of the line before.
fn read_line<'a>(
    reader: &mut LineReader,
    number: u32,
    line: &'a [u8],
    words: &mut Vec<&'a [u8]>,
) -> Result<(), ScriptFault>
    ensures { (form : Form) (lines : List Line) → HasRead form lines reader.old →
        HasReadNext form lines number (words_of line.now) result reader.new }
{
    if line.len() > SHORT {
        return read_long(reader, number, line, words);
    }
    let plain = find_words(line, words)?;
    reader.read(number, words, plain)
}

/// Whether a text has so few bytes that its lines can be counted: fewer than 2^32 - 1.
pub fn is_short(bytes: &[u8]) -> bool
    ensures exact { result ≡ nat_lt (length bytes.now) (2 ^ 32 - 1) }
    ensures lines { IsTrue result → length (lines_of bytes.now) < 2 ^ 32 - 1 }
{
    bytes.len() < 4_294_967_295
}

/// Reads a text as a script. It has fewer than 2^32 - 1 lines, as it does where `is_short` says so.
///
/// Lines end at line feeds, with or without a carriage return before them. From `#` on a line is a
/// comment. Words are printable ASCII, between runs of spaces and tabs. The first line with words may be
/// `version 2`: the text is of the second version then, and else of the first. Each other line says one of
///
/// - `buffer NAME SIZE`: a buffer of 1 to 1,048,576 bytes; 64 buffers at most, of 1,048,576 bytes
///   together;
/// - `timeline NAME VALUE`: a timeline semaphore with this initial payload;
/// - `binary NAME`: a binary semaphore, unsignaled;
/// - `fence NAME`: a fence, unsignaled;
/// - `queue NAME immediate`, `queue NAME deferred`, `queue NAME threaded`: a queue that is submitted
///   to by the host, which hands each batch over at once or holds batches back, or by a thread of its
///   own; 8 queues at most, and 16 in version 2;
/// - `submit QUEUE`: the first line of a batch; 4,096 batches and host steps at most, and 8,192 in version 2;
/// - `host signal TIMELINE VALUE`: the host signals a timeline;
/// - `host wait all TIMELINE VALUE ..`, `host wait any ..`: the host waits until all of these payloads
///   are reached, or one; 16 pairs at most;
/// - `host poll all TIMELINE VALUE ..`, `host poll any ..`: it asks whether they are, without waiting;
/// - `host read TIMELINE`: it asks for a payload;
/// - `host fence wait FENCE`, `host fence poll FENCE`, `host fence reset FENCE`: it waits for a fence,
///   asks for it, resets it;
/// - `host idle`: it waits until each batch before this line is complete;
/// - `wait TIMELINE VALUE`, `wait SEMAPHORE`: what the whole batch waits for, a payload of a
///   timeline or the signal of a binary semaphore; 16 waits a batch at most;
/// - `wait TIMELINE VALUE from PLACE`, `wait SEMAPHORE from PLACE`, in version 2: what the batch's commands
///   from this one on wait for, counted from 1; PLACE is at most the commands of the batch and 1 more;
/// - `fill BUFFER OFFSET SIZE WORD`, `fill BUFFER OFFSET whole WORD`: writes a word again and
///   again;
/// - `update BUFFER OFFSET DIGITS`: writes 1 to 65,536 bytes, of two hexadecimal digits each;
/// - `copy BUFFER OFFSET BUFFER OFFSET SIZE`: writes bytes that stand elsewhere, none of which it
///   reads;
/// - `signal TIMELINE VALUE`, `signal SEMAPHORE`: what the batch signals; 16 signals a batch at
///   most;
/// - `fence FENCE` in a batch: the fence that it signals; one a batch at most;
/// - `end`: the last line of the batch.
///
/// and in the form `Scheduled`, after all these,
///
/// - `schedule`: what follows are turns;
/// - `ACTOR`, `ACTOR COUNT`: one turn of the actor, or COUNT turns, one at least; 65,536 turns at
///   most. An actor is `host`, `S:QUEUE` for the thread that submits to a threaded queue, or
///   `R:QUEUE` for the device's side of a queue.
///
/// Fills, updates and copies are the commands of the batch; 64 a batch at most, and 8,192 in all.
/// In a batch the waits come first, then the commands, then the signals, then the fence. Buffers,
/// semaphores, fences and queues are declared before the first batch or host step, each by a name of
/// its own; timelines, binary semaphores and fences are 256 together at most. The script has the same
/// declarations, batches, host steps and turns, each with the number of its line, counted from 1; COUNT
/// turns of a line are as many turns of the script. It has a schedule exactly where the form is
/// `Scheduled`.
///
/// The format is this project's own. The ranges of commands are those of Vulkan 1.3, "Clear
/// Commands" and "Copy Commands".
///
/// # Errors
///
/// `At` is the first line with a fault and the first kind of that line's faults, in the order of
/// `FaultKind`; the line after the last is `Syntax` where a batch is open, or where the form is
/// `Scheduled` and there is no schedule. `Memory` comes where memory runs out.
pub fn parse(alloc: Global, bytes: &[u8], form: Form) -> Result<Script, ScriptFault>
    requires { length (lines_of bytes.now) < 2 ^ 32 - 1 }
    ensures exact { Gives result (read_script bytes.now form) }
    ensures stands { IfOk result (λ script. StandsFor bytes.now form script) }
    ensures fault { IfErr result (λ fault. IsFirst bytes.now form fault) }
{
    let mut reader = LineReader::new(alloc, form);
    let mut words = Vec::new(alloc);
    let mut number: u32 = 1;
    let mut rest = bytes;
    while let Some((line, after)) = next_line(rest) {
        read_line(&mut reader, number, line, &mut words)?;
        rest = after;
        number += 1;
    }
    reader.finish(number)
}
