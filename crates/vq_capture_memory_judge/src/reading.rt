//! The steps of a text, each with the lines that release it.
ghost use Rattle.std.specs.Prelude.{◌≡◌, IfOk, map};
ghost use Rattle.vq_capture.specs.Reading.{read_capture};
ghost use Rattle.vq_capture_reader.specs.Lines.{above_of};
ghost use Rattle.vq_capture_memory_judge.specs.ToldSteps.{TookLine, told_all, told_of};

use std::alloc::{AllocError, Global};
use vq_capture_judge::lines::first_line;
use vq_capture_reader::{Added, Reader};
use vq_lexer::find_words;

/// Takes a line, whose words come into this room. It says whether the reading goes on.
fn take_line<'a>(
    reader: &mut Reader,
    line: u64,
    text: &'a [u8],
    words: &mut Vec<&'a [u8]>,
    steps: &mut Vec<Added>,
) -> Result<bool, AllocError>
    ensures { IfOk result (λ goes. TookLine goes line text.now (above_of reader.old) (above_of reader.new)
        (told_of steps.old.items) (told_of steps.new.items)) }
{
    let plain = find_words(text, words)?;
    if let Some(_kind) = reader.take(line, words.as_slice(), plain)? {
        return Ok(false);
    }
    match reader.take_added() {
        Some(added) => {
            steps.push(added)?;
            Ok(true)
        }
        None => Ok(true),
    }
}

/// The steps of a text, each with the lines that release it. The error is want of memory, or 2^64 - 1 lines.
pub fn read_steps(alloc: Global, text: &[u8]) -> Result<Vec<Added>, AllocError>
    ensures { IfOk result (λ steps. told_of steps.items ≡ told_all (read_capture text.now).steps) }
{
    let mut reader = Reader::new(alloc);
    let mut steps = Vec::new(alloc);
    let mut words = Vec::new(alloc);
    let mut line: u64 = 1;
    let mut rest = text;
    while let Some((part, behind)) = first_line(rest) {
        if !take_line(&mut reader, line, part, &mut words, &mut steps)? {
            return Ok(steps);
        }
        let Some(next) = line.checked_add(1) else {
            return Err(AllocError);
        };
        line = next;
        rest = behind;
    }
    Ok(steps)
}
