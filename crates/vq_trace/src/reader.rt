//! A trace, read line by line.
ghost use Rattle.std.specs.Prelude.{◌≡◌, ◌<◌, ◌+◌, ◌^◌, ◌++◌, ◌∷◌, OnOk, IfOk, length};
ghost use Rattle.std.specs.List.{join_with_byte};
ghost use Rattle.vq_model.specs.LoweredPlans.{IsPlan};
ghost use Rattle.vq_model.specs.Text.{lines_of};
ghost use Rattle.vq_lexer.specs.Words.{texts};
ghost use Rattle.vq_given.specs.Reading.{ended_at, read_trace, rest_from, rest_line};
ghost use Rattle.vq_trace.specs.Outcomes.{Gives};
ghost use Rattle.vq_trace.specs.TurnSteps.{Takes, turns_read};

use crate::index::Index;
use crate::said::line_said;
use crate::turns::Turns;
use std::alloc::{AllocError, Global};
use vq_given::given::{GivenLine, GivenTrace, TraceEnd, TraceFault};
use vq_lexer::{find_words, next_line};
use vq_model::list::{Bytes, List};
use vq_spec::Plan;

/// Words with one space between two.
#[tactic(auto, using(crate::proofs::Joined::joined))]
fn joined(alloc: Global, first: &[u8], later: &[&[u8]]) -> Result<Vec<u8>, AllocError>
    ensures { IfOk result (λ text. text.items ≡ join_with_byte 32 (first.now ∷ texts later.now)) }
{
    let mut text = Vec::from_slice(alloc, first)?;
    for word in later {
        text.push(b' ')?;
        text.extend_from_slice(word)?;
    }
    Ok(text)
}

/// Adds a line that follows the end of the turns, if it has words.
fn push_line(
    alloc: Global,
    lines: &mut Vec<GivenLine>,
    line: u32,
    words: &[&[u8]],
) -> Result<(), AllocError>
    ensures { OnOk result (lines.new.items ≡ lines.old.items ++ rest_line line (texts words.now)) }
{
    let [first, later @ ..] = words else {
        return Ok(());
    };
    let text = Bytes::of(joined(alloc, first, later)?);
    lines.push(GivenLine { line, text })?;
    Ok(())
}

/// The lines that follow the end of the turns, and have words. The first has this number.
fn rest_lines<'a>(
    alloc: Global,
    text: &'a [u8],
    first: u32,
    words: &mut Vec<&'a [u8]>,
) -> Result<Vec<GivenLine>, AllocError>
    requires { first + length (lines_of text.now) < 2 ^ 32 }
    ensures { IfOk result (λ lines. lines.items ≡ rest_from first (lines_of text.now)) }
{
    let mut lines = Vec::new(alloc);
    let mut number = first;
    let mut rest = text;
    while let Some((line, after)) = next_line(rest) {
        // Lines after the end may hold any bytes.
        let _plain = find_words(line, words)?;
        push_line(alloc, &mut lines, number, words)?;
        rest = after;
        number += 1;
    }
    Ok(lines)
}

/// The trace that ends at a line.
fn ended<'a>(
    alloc: Global,
    turns: Turns,
    line: u32,
    end: TraceEnd,
    after: &'a [u8],
    words: &mut Vec<&'a [u8]>,
) -> Result<GivenTrace, AllocError>
    requires { line + 1 + length (lines_of after.now) < 2 ^ 32 }
    ensures { IfOk result (λ trace. trace
        ≡ ended_at (turns_read turns) line end (rest_from (line + 1) (lines_of after.now))) }
{
    let rest = rest_lines(alloc, after, line + 1, words)?;
    Ok(GivenTrace {
        events: List::of(turns.events),
        end_line: line,
        finished: end.finished,
        left: end.left,
        rest: List::of(rest),
    })
}

/// Reads a trace of a plan. Its first line has the number `first`, and all its lines have numbers below 2^32.
///
/// Lines, words and numerals are those of scripts, and a line without words says nothing. Each other line is a
/// turn, a number, an actor and an outcome, up to the line that ends the turns: `finished`, or `unfinished N`. The
/// number of a turn is above that of the turn before. An actor is `host`, `S:QUEUE` or `R:QUEUE`. An outcome is `-`
/// or `.`, which make no event, or the text of an event, whose names, lines and values are of the plan, and which the
/// actor may make. The trace has these events with their lines, the end, and the lines after it that have words.
///
/// The format is this project's own.
///
/// # Errors
///
/// `At` is the first line that says nothing which a trace may say there; where no line ends the turns, it is the
/// line after the last. `Memory` comes where memory runs out.
pub fn read_trace(
    alloc: Global,
    plan: &Plan,
    bytes: &[u8],
    first: u32,
) -> Result<GivenTrace, TraceFault>
    requires plan { IsPlan plan.now }
    requires counted { first + length (lines_of bytes.now) < 2 ^ 32 }
    ensures { Gives result (read_trace plan.now first bytes.now) }
{
    let index = Index::of(alloc, plan)?;
    let mut words = Vec::new(alloc);
    let mut turns = Turns::new(alloc);
    let mut number = first;
    let mut rest = bytes;
    while let Some((line, after)) = next_line(rest) {
        // A word with a byte that isn't plain says nothing of a plan.
        let _plain = find_words(line, &mut words)?;
        if let Some(end) = turns.take(number, line_said(plan, &index, &words))? {
            return Ok(ended(alloc, turns, number, end, after, &mut words)?);
        }
        rest = after;
        number += 1;
    }
    Err(TraceFault::At { line: number })
}
