//! A judge of a capture, which is fed line by line.
ghost use Rattle.std.specs.Prelude.{◌≡◌, IfOk};

use std::alloc::{AllocError, Global};
use vq_capture::capture::{Fault, Verdict};
use vq_capture_check::Told;
use vq_capture_pruning::PruningWatch;
use vq_capture_reader::Reader;
use vq_lexer::find_words;

/// A judge of a capture, which is fed line by line, and says its verdict at the line that closes a race or is faulty.
/// After that, and after an `Err`, nothing is said of it.
#[derive(Drop)]
pub struct Judge {
    reader: Reader,
    watch: PruningWatch,
    line: u64,
}

impl Judge {
    ghost use Rattle.vq_capture_judge.specs.Judging.{start_judging, with_text, with_told};
    ghost use Rattle.vq_capture_judge.specs.Judges.{came_of, judging_of};

    /// A judge that was fed no lines.
    pub fn new(alloc: Global) -> Judge
        ensures { judging_of result ≡ start_judging }
    {
        Judge {
            reader: Reader::new(alloc),
            watch: PruningWatch::new(alloc),
            line: 1,
        }
    }

    /// Looks at a step, with the lines that release it.
    fn check(&mut self, told: Told) -> Result<Option<Verdict>, AllocError>
        ensures { IfOk result (λ verdict.
            came_of verdict (judging_of self.new) ≡ with_told (judging_of self.old) told) }
    {
        let second = told.step().line;
        if let Some(first) = self.watch.take(&told)? {
            return Ok(Some(Verdict::Race { first, second }));
        }
        Ok(None)
    }

    /// Takes the next line, without its end, whose words come into this room. The error is want of memory, or that its
    /// number isn't below 2^64 - 1.
    pub fn take<'a>(
        &mut self,
        text: &'a [u8],
        words: &mut Vec<&'a [u8]>,
    ) -> Result<Option<Verdict>, AllocError>
        ensures { IfOk result (λ verdict.
            came_of verdict (judging_of self.new) ≡ with_text (judging_of self.old) text.now) }
    {
        let plain = find_words(text, words)?;
        let line = self.line;
        let Some(next) = line.checked_add(1) else {
            return Err(AllocError);
        };
        if let Some(kind) = self.reader.take(line, words.as_slice(), plain)? {
            return Ok(Some(Verdict::Faulty {
                fault: Fault { line, kind },
            }));
        }
        self.line = next;
        match self.reader.take_added() {
            Some(added) => self.check(Told::new(added.step, added.released)),
            None => Ok(None),
        }
    }
}
