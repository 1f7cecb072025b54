//! What a line says of a step of the host, before it is kept: its pairs are words yet.
ghost use Rattle.std.specs.Prelude.{◌≡◌, true, is_some, length, IfOk, IfSome, Some};
ghost use Rattle.vq_model.specs.LineFaults.{pairs_of};
ghost use Rattle.vq_model.specs.Meaning.{pair_at, pairs_at};
ghost use Rattle.vq_script.specs.LineTests.{number_of};
ghost use Rattle.vq_script.specs.Holds.{Kept, kept};
ghost use Rattle.vq_forms.specs.OpenWords.{opens};
ghost use Rattle.vq_lexer.specs.Words.{texts};
ghost use Rattle.vq_script.specs.SaidLines.{AreEach, Fits, is_step_line, is_pairs_line, SaysStep};
ghost use Rattle.vq_script.specs.SaidSteps.{step_in, IsReadStep};

use crate::known::Known;
use std::alloc::{AllocError, Global};
use vq_forms::Token;
use vq_lexer::numeral;
use vq_model::list::List;
use vq_model::script::{HostStep, Pair};
use vq_model::statement::LineForm;

/// What a line says that the host does. A list of pairs is the words of which it is read, a name and a
/// numeral for each pair.
#[derive(Clone, Copy)]
pub enum SaidStep<'a> {
    Signal(Pair),
    WaitAll(&'a [&'a [u8]]),
    WaitAny(&'a [&'a [u8]]),
    PollAll(&'a [&'a [u8]]),
    PollAny(&'a [&'a [u8]]),
    Read(u32),
    FenceWait(u32),
    FencePoll(u32),
    FenceReset(u32),
    Idle,
}

impl SaidStep<'_> {
    /// How many pairs are in the list of pairs.
    pub fn pair_count(&self) -> usize
        ensures { (k : Kept) → IsReadStep k self.now → result ≡ length (pairs_of (step_in k self.now)) }
    {
        match *self {
            SaidStep::WaitAll(words) => words.len() / 2,
            SaidStep::WaitAny(words) => words.len() / 2,
            SaidStep::PollAll(words) => words.len() / 2,
            SaidStep::PollAny(words) => words.len() / 2,
            _ => 0,
        }
    }
}

/// The pair of a timeline's name and a numeral, where both are read.
#[inline(always)]
pub fn pair(known: &Known, timeline: &[u8], value: &[u8]) -> Option<Pair>
    ensures { result ≡ pair_at (number_of (kept known.now)) timeline.now value.now }
{
    Some(Pair {
        semaphore: known.number_of(Token::TimelineToken, timeline)?,
        value: numeral(value)?,
    })
}

/// Whether the pairs of these words are read.
#[tactic(auto, using(crate::proofs::PairsRead::few_words))]
fn are_read(known: &Known, words: &[&[u8]]) -> bool
    ensures { result ≡ is_some (pairs_at (number_of (kept known.now)) (texts words.now)) }
{
    let mut rest = words;
    while let [timeline, value, after @ ..] = rest {
        if pair(known, timeline, value).is_none() {
            return false;
        }
        rest = after;
    }
    true
}

/// The pairs of words that are read.
fn owned_pairs(alloc: Global, known: &Known, words: &[&[u8]]) -> Result<List<Pair>, AllocError>
    requires { is_some (pairs_at (number_of (kept known.now)) (texts words.now)) ≡ true }
    ensures { IfOk result (λ pairs. pairs_at (number_of (kept known.now)) (texts words.now) ≡ Some pairs) }
{
    let mut pairs = Vec::new(alloc);
    let mut rest = words;
    while let [timeline, value, after @ ..] = rest {
        let Some(pair) = pair(known, timeline, value) else {
            unreachable!()
        };
        pairs.push(pair)?;
        rest = after;
    }
    Ok(List::of(pairs))
}

/// The step that a line without a fault says.
pub fn owned_step(alloc: Global, known: &Known, step: SaidStep<'_>) -> Result<HostStep, AllocError>
    requires { IsReadStep (kept known.now) step }
    ensures { IfOk result (λ owned. owned ≡ step_in (kept known.now) step.entry) }
{
    Ok(match step {
        SaidStep::Signal(pair) => HostStep::Signal(pair),
        SaidStep::WaitAll(words) => HostStep::WaitAll(owned_pairs(alloc, known, words)?),
        SaidStep::WaitAny(words) => HostStep::WaitAny(owned_pairs(alloc, known, words)?),
        SaidStep::PollAll(words) => HostStep::PollAll(owned_pairs(alloc, known, words)?),
        SaidStep::PollAny(words) => HostStep::PollAny(owned_pairs(alloc, known, words)?),
        SaidStep::Read(timeline) => HostStep::Read(timeline),
        SaidStep::FenceWait(fence) => HostStep::FenceWait(fence),
        SaidStep::FencePoll(fence) => HostStep::FencePoll(fence),
        SaidStep::FenceReset(fence) => HostStep::FenceReset(fence),
        SaidStep::Idle => HostStep::Idle,
    })
}

/// Whether a form is a step of the host with a list of pairs.
pub fn is_pairs_line(form: LineForm) -> bool
    ensures { result ≡ is_pairs_line form }
{
    matches!(
        form,
        LineForm::HostWaitAllLine
            | LineForm::HostWaitAnyLine
            | LineForm::HostPollAllLine
            | LineForm::HostPollAnyLine
    )
}

/// What a line with pairs says, where its numbers and names are read.
pub fn pairs_line<'a>(known: &Known, form: LineForm, words: &'a [&'a [u8]]) -> Option<SaidStep<'a>>
    requires fits { Fits form words.now }
    requires pairs { is_pairs_line form ≡ true }
    ensures says { SaysStep (kept known.now) form (opens form words.now) result }
    ensures read { IfSome result (IsReadStep (kept known.now)) }
{
    let [_, _, _, pairs @ ..] = words else {
        unreachable!();
    };
    if !are_read(known, pairs) {
        return None;
    }
    match form {
        LineForm::HostWaitAllLine => Some(SaidStep::WaitAll(pairs)),
        LineForm::HostWaitAnyLine => Some(SaidStep::WaitAny(pairs)),
        LineForm::HostPollAllLine => Some(SaidStep::PollAll(pairs)),
        LineForm::HostPollAnyLine => Some(SaidStep::PollAny(pairs)),
        _ => unreachable!(),
    }
}

/// What another line of the host says, where its numbers and names are read.
pub fn step_line<'a>(known: &Known, form: LineForm, words: &[&'a [u8]]) -> Option<SaidStep<'a>>
    requires each { AreEach form words.now }
    requires step { is_step_line form ≡ true }
    ensures says { SaysStep (kept known.now) form (opens form words.now) result }
    ensures read { IfSome result (IsReadStep (kept known.now)) }
{
    match (form, words) {
        (LineForm::HostSignalLine, [_, _, timeline, value]) => {
            Some(SaidStep::Signal(pair(known, timeline, value)?))
        }
        (LineForm::HostReadLine, [_, _, timeline]) => Some(SaidStep::Read(known.number_of(
            Token::TimelineToken,
            timeline,
        )?)),
        (LineForm::HostFenceWaitLine, [_, _, _, fence]) => Some(SaidStep::FenceWait(known.number_of(
            Token::FenceToken,
            fence,
        )?)),
        (LineForm::HostFencePollLine, [_, _, _, fence]) => Some(SaidStep::FencePoll(known.number_of(
            Token::FenceToken,
            fence,
        )?)),
        (LineForm::HostFenceResetLine, [_, _, _, fence]) => Some(SaidStep::FenceReset(
            known.number_of(Token::FenceToken, fence)?,
        )),
        (LineForm::HostIdleLine, [_, _]) => Some(SaidStep::Idle),
        _ => unreachable!(),
    }
}
