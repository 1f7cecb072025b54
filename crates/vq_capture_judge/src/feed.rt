//! Feeding a judge with the bytes of a capture.
ghost use Rattle.std.specs.Prelude.{IfOk};
ghost use Rattle.vq_capture_judge.specs.Judges.{judging_of};
ghost use Rattle.vq_capture_judge.specs.Feeding.{FedBy};

use crate::line_judge::Judge;
use crate::lines::first_line;
use std::alloc::{AllocError, Global};
use vq_capture::capture::Verdict;

/// What comes of some bytes: a verdict, or the start of a line that hasn't ended.
pub enum Fed<'a> {
    Says(Verdict),
    Left(&'a [u8]),
}

/// Feeds the lines of a text that have ended. The error is want of memory.
pub fn feed<'a>(alloc: Global, judge: &mut Judge, text: &'a [u8]) -> Result<Fed<'a>, AllocError>
    ensures { IfOk result (FedBy (judging_of judge.old) text.now (judging_of judge.new)) }
{
    // Room for the words of a line, which all lines of the text use.
    let mut words = Vec::new(alloc);
    let mut rest = text;
    while let Some((line, behind)) = first_line(rest) {
        if let Some(verdict) = judge.take(line, &mut words)? {
            return Ok(Fed::Says(verdict));
        }
        rest = behind;
    }
    Ok(Fed::Left(rest))
}
