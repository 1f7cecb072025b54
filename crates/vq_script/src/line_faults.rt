//! The first fault of a line: its words first, then what it says.
ghost use Rattle.std.specs.Prelude.{◌≡◌, ◌<◌, ◌^◌, List, None, Some, IsTrue, IfOk, cond, is_some, map, not, true};
ghost use Rattle.std.specs.List.{list_all};
ghost use Rattle.std.specs.Option.{option_or};
ghost use Rattle.vq_model.specs.LineFaults.{is_numeric, is_shaped, is_out_of_order, is_within, is_in_range};
ghost use Rattle.vq_model.specs.LineFaults.{overlaps, passes_limit};
ghost use Rattle.vq_model.specs.declared.statement.FaultKind.TheVariants.{Name, Number, Syntax, Order};
ghost use Rattle.vq_model.specs.declared.statement.Line.{Line};
ghost use Rattle.vq_script.specs.Faults.{Tells};
ghost use Rattle.vq_script.specs.Holds.{Keeps, Kept, kept, open_so_far};
ghost use Rattle.vq_script.specs.LineTests.{earlier_in, word_fault, said_fault};
ghost use Rattle.vq_forms.specs.OpenWords.{opens};
ghost use Rattle.vq_script.specs.SaidLines.{Fits, IsWhollyRead, IsSmall, May, Stands, statement_in};
ghost use Rattle.vq_script.specs.SaidLines.{is_actor_or_marked, is_turn_form, named_in};

use crate::known::Known;
use crate::place_faults::has_new_names;
use crate::said::{Said, statement_of};
use vq_forms::{are_numeric, are_shaped, is_declaration, part_of_form};
use vq_lexer::is_marked;
use vq_model::limits::UPDATE_BYTES;
use vq_model::ranges::is_aligned;
use vq_model::statement::{FaultKind, LineForm};

/// Whether a form is out of order: a declaration after the first batch or step of the host, a line of an earlier part
/// of the batch, or a second fence.
#[inline(always)]
pub fn is_late(known: &Known, form: LineForm) -> bool
    ensures { result ≡ is_out_of_order (earlier_in (kept known.now) (open_so_far known.now.batch)) form }
{
    (is_declaration(form) && known.has_begun())
        || part_of_form(form) < known.last_part()
        || (matches!(form, LineForm::BatchFenceLine) && known.has_fence())
}

/// The first kind of the faults that the words of a line have before they are read, by whether each has its shape.
#[inline(always)]
fn word_fault(known: &Known, form: LineForm, shaped: bool) -> Option<FaultKind>
    ensures { result ≡ cond (not shaped) (Some Syntax)
        (cond (is_out_of_order (earlier_in (kept known.now) (open_so_far known.now.batch)) form) (Some Order) None) }
{
    if !shaped {
        return Some(FaultKind::Syntax);
    }
    if is_late(known, form) {
        return Some(FaultKind::Order);
    }
    None
}

/// Whether a form is one of the schedule's turns.
#[inline(always)]
fn is_turn(form: LineForm) -> bool
    ensures { result ≡ is_turn_form form }
{
    matches!(form, LineForm::TurnLine | LineForm::TurnsLine)
}

/// Whether a word is `host`, or begins as the other actors of the schedule do.
fn is_actor_or_marked(word: &[u8]) -> bool
    ensures { result ≡ is_actor_or_marked word.now }
{
    word == b"host".as_slice() || is_marked(b'S', word) || is_marked(b'R', word)
}

/// Whether each word of a line has its shape, where all are read: a name that is declared needs no look.
#[inline(always)]
fn are_read_shaped(known: &Known, form: LineForm, words: &[&[u8]]) -> bool
    requires fits { Fits form words.now }
    requires read { is_some (named_in (kept known.now) form (map (λ x. x.1) (opens form words.now))) ≡ true }
    ensures { result ≡ list_all is_shaped (opens form words.now) }
{
    if is_declaration(form) {
        return are_shaped(form, words);
    }
    if !is_turn(form) {
        return true;
    }
    let [actor, ..] = words else {
        unreachable!();
    };
    is_actor_or_marked(actor)
}

/// Whether bytes begin in a buffer, are one at least, and end in it.
fn is_within(known: &Known, buffer: u32, offset: u64, size: u64) -> bool
    ensures exact { result ≡ is_within known.now.buffers.items buffer offset size }
    ensures small { IsTrue result → (offset < 2 ^ 32) × (size < 2 ^ 32) }
{
    let end = u64::from(known.size_of(buffer));
    offset < end && 0 < size && size <= end - offset
}

/// Whether the sizes, offsets and places of what a line says are in range.
#[tactic(auto, using(vq_lexer::proofs::Cited::hex_length, vq_lexer::proofs::Cited::hex_limit))]
#[inline(always)]
fn is_in_range(known: &Known, said: &Said<'_>) -> bool
    ensures exact { result ≡ is_in_range (earlier_in (kept known.now) (open_so_far known.now.batch))
        (statement_in (kept known.now) said.now) }
    ensures small { IsTrue result → IsSmall said.now }
{
    match *said {
        Said::Buffer { size, .. } => 0 < size,
        Said::Wait { from, .. } => { 0 < from && from < u64::from(known.limits.batch_commands) + 2 }
        Said::FillWhole { buffer, offset, .. } => {
            offset < u64::from(known.size_of(buffer)) && is_aligned(offset)
        }
        Said::Fill {
            buffer,
            offset,
            size,
            ..
        } => is_within(known, buffer, offset, size) && is_aligned(offset) && is_aligned(size),
        Said::Update {
            buffer,
            offset,
            digits,
        } => {
            let size = (digits.len() / 2) as u64;
            is_within(known, buffer, offset, size)
                && is_aligned(offset)
                && is_aligned(size)
                && size <= UPDATE_BYTES
        }
        Said::Copy {
            source,
            source_offset,
            target,
            target_offset,
            size,
        } => {
            is_within(known, source, source_offset, size)
                && is_within(known, target, target_offset, size)
        }
        Said::End => !known.waits_too_far(),
        Said::Turns { count, .. } => 0 < count,
        _ => true,
    }
}

/// Whether the two ranges of a copy share a byte of one buffer.
#[inline(always)]
fn overlaps(said: &Said<'_>) -> bool
    ensures { (k : Kept) → result ≡ overlaps k.buffers (statement_in k said.now) }
{
    match *said {
        Said::Copy {
            source,
            source_offset,
            target,
            target_offset,
            size,
        } => target == source && target_offset.abs_diff(source_offset) < size,
        _ => false,
    }
}

/// Whether what a line says takes a quantity past its limit.
#[inline(always)]
fn passes_limit(known: &Known, said: &Said<'_>) -> bool
    requires read { IsWhollyRead (kept known.now) said.now }
    ensures exact { result ≡ passes_limit (earlier_in (kept known.now) (open_so_far known.now.batch))
        (statement_in (kept known.now) said.now) }
{
    match *said {
        Said::Buffer { size, .. } => {
            known.buffers.len() >= known.limits.buffers as usize
                || size > u64::from(known.limits.bytes - known.bytes)
        }
        Said::Semaphore { .. } => known.semaphores.len() >= known.limits.semaphores as usize,
        Said::Queue { .. } => known.queues.len() >= known.limits.queues as usize,
        Said::Submit { .. } => known.job_count() >= known.limits.jobs as usize,
        Said::Host { step } => {
            known.job_count() >= known.limits.jobs as usize
                || step.pair_count() > known.limits.pairs as usize
        }
        Said::Wait { .. } => known.has_all_waits(),
        Said::FillWhole { .. } => known.has_all_commands(),
        Said::Fill { .. } => known.has_all_commands(),
        Said::Update { .. } => known.has_all_commands(),
        Said::Copy { .. } => known.has_all_commands(),
        Said::Signal { .. } => known.has_all_signals(),
        Said::Fence { .. } => false,
        Said::End => false,
        Said::Schedule => false,
        Said::Turns { count, .. } => count
            > (known.limits.turns as usize - known.turns.len()) as u64,
    }
}

/// The first kind of the faults that a line has whose words are read.
#[inline(always)]
fn said_fault(known: &Known, form: LineForm, words: &[&[u8]], said: &Said<'_>) -> Option<FaultKind>
    requires fits { Fits form words.now }
    requires read { IsWhollyRead (kept known.now) said.now }
    ensures exact { result ≡ said_fault (earlier_in (kept known.now) (open_so_far known.now.batch))
        (opens form words.now) (statement_in (kept known.now) said.now) }
    ensures small { result ≡ None → IsSmall said.now }
{
    if !has_new_names(known, form, words) {
        return Some(FaultKind::Twice);
    }
    if !is_in_range(known, said) {
        return Some(FaultKind::Range);
    }
    if overlaps(said) {
        return Some(FaultKind::Overlap);
    }
    if passes_limit(known, said) {
        return Some(FaultKind::Limit);
    }
    None
}

/// The first kind of the faults that a line has whose words aren't all read.
#[inline(never)]
fn unread_fault(known: &Known, form: LineForm, words: &[&[u8]]) -> FaultKind
    ensures { Some result ≡ option_or
        (word_fault (earlier_in (kept known.now) (open_so_far known.now.batch)) form (opens form words.now))
        (Some (cond (list_all is_numeric (opens form words.now)) Name Number)) }
{
    if let Some(kind) = word_fault(known, form, are_shaped(form, words)) {
        return kind;
    }
    if are_numeric(form, words) {
        FaultKind::Name
    } else {
        FaultKind::Number
    }
}

/// What a line of a form says, or the first kind of its faults. Most words that are read have no fault of their own.
#[inline(always)]
pub fn said_by<'a>(
    known: &Known,
    form: LineForm,
    words: &'a [&'a [u8]],
) -> Result<Said<'a>, FaultKind>
    requires fits { Fits form words.now }
    requires stands { Stands form known.now.scheduled (open_so_far known.now.batch) }
    ensures told { (lines : List Line) → Keeps lines known.now →
        Tells lines (form, opens form words.now) (statement_in (kept known.now)) result }
    ensures may { IfOk result (May (kept known.now) (open_so_far known.now.batch)) }
{
    let Some(said) = statement_of(known, form, words) else {
        return Err(unread_fault(known, form, words));
    };
    let shaped = are_read_shaped(known, form, words);
    if let Some(kind) = word_fault(known, form, shaped) {
        return Err(kind);
    }
    if let Some(kind) = said_fault(known, form, words, &said) {
        return Err(kind);
    }
    Ok(said)
}
