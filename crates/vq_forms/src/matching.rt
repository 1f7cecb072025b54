//! The form of a line, by the number of its words and by its fixed words.
ghost use Rattle.std.specs.Prelude.{◌≡◌, ◌&&◌, ◌∷◌, [], ℕ, List, codes, false, find, true};
ghost use Rattle.std.specs.Str.{bytes_eq};
ghost use Rattle.vq_model.specs.Forms.{Pairs, forms_in_batch, forms_in_schedule, forms_outside};
ghost use Rattle.vq_model.specs.Forms.{held_forms, schedule_forms};
ghost use Rattle.vq_model.specs.declared.statement.LineForm.TheVariants.{VersionLine};
ghost use Rattle.vq_model.specs.declared.statement.Form.TheVariants.{Plain};
ghost use Rattle.vq_model.specs.declared.statement.Section.TheVariants.{InBatch};
ghost use Rattle.vq_model.specs.Meaning.{are_as_many, matches};
ghost use Rattle.vq_forms.specs.Table.{forms_of};
ghost use Rattle.vq_lexer.specs.Words.{texts};

use vq_model::script::Mode;
use vq_model::statement::LineForm::{
    BatchFenceLine, BinaryLine, BufferLine, CopyLine, EndLine, FenceLine, FillLine, FillWholeLine,
    HeldBinaryLine, HeldTimelineLine, HostFencePollLine, HostFenceResetLine, HostFenceWaitLine,
    HostIdleLine, HostPollAllLine, HostPollAnyLine, HostReadLine, HostSignalLine, HostWaitAllLine,
    HostWaitAnyLine, QueueLine, ScheduleLine, SignalBinaryLine, SignalTimelineLine, SubmitLine,
    TimelineLine, TurnLine, TurnsLine, UpdateLine, WaitBinaryLine, WaitTimelineLine,
};
use vq_model::statement::{Form, LineForm, Section};

/// Whether a word is this text.
#[inline(always)]
fn is(word: &[u8], text: &str) -> bool
    ensures { result ≡ bytes_eq word.now text.now }
{
    word == text.as_bytes()
}

/// Whether words are the line that names the second version.
pub fn is_version(words: &[&[u8]]) -> bool
    ensures { result ≡ matches (texts words.now) VersionLine }
{
    match words {
        [first, second] => is(first, "version") && is(second, "2"),
        _ => false,
    }
}

/// The form of `queue`, a name and a word.
fn queue_form(third: &[u8]) -> Option<LineForm>
    ensures { (second : List ℕ) →
        result ≡ find (matches (codes "queue" ∷ second ∷ third.now ∷ [])) forms_outside }
{
    if is(third, "immediate") {
        Some(QueueLine(Mode::Immediate))
    } else if is(third, "deferred") {
        Some(QueueLine(Mode::Deferred))
    } else if is(third, "threaded") {
        Some(QueueLine(Mode::Threaded))
    } else {
        None
    }
}

/// The form of two words outside batches, of which the first isn't `host`.
fn form_of_two(first: &[u8]) -> Option<LineForm>
    requires { bytes_eq first.now (codes "host") ≡ false }
    ensures { (second : List ℕ) → result ≡ find (matches (first.now ∷ second ∷ [])) forms_outside }
{
    if is(first, "binary") {
        Some(BinaryLine)
    } else if is(first, "fence") {
        Some(FenceLine)
    } else if is(first, "submit") {
        Some(SubmitLine)
    } else {
        None
    }
}

/// The form of three words outside batches, of which the first isn't `host`.
fn form_of_three(first: &[u8], third: &[u8]) -> Option<LineForm>
    requires { bytes_eq first.now (codes "host") ≡ false }
    ensures { (second : List ℕ) →
        result ≡ find (matches (first.now ∷ second ∷ third.now ∷ [])) forms_outside }
{
    if is(first, "buffer") {
        Some(BufferLine)
    } else if is(first, "timeline") {
        Some(TimelineLine)
    } else if is(first, "queue") {
        queue_form(third)
    } else {
        None
    }
}

/// The form of `host`, `fence`, this word and another.
fn host_fence_form(third: &[u8]) -> Option<LineForm>
    ensures { (fourth : List ℕ) →
        result ≡ find (matches (codes "host" ∷ codes "fence" ∷ third.now ∷ fourth ∷ [])) forms_outside }
{
    if is(third, "wait") {
        Some(HostFenceWaitLine)
    } else if is(third, "poll") {
        Some(HostFencePollLine)
    } else if is(third, "reset") {
        Some(HostFenceResetLine)
    } else {
        None
    }
}

/// The form of `host`, these two words and another.
fn host_form_of_four(second: &[u8], third: &[u8]) -> Option<LineForm>
    ensures { (fourth : List ℕ) →
        result ≡ find (matches (codes "host" ∷ second.now ∷ third.now ∷ fourth ∷ [])) forms_outside }
{
    if is(second, "signal") {
        Some(HostSignalLine)
    } else if is(second, "fence") {
        host_fence_form(third)
    } else {
        None
    }
}

/// The form of `host`, `wait` and this word before pairs.
fn host_wait_form(third: &[u8]) -> Option<LineForm>
    ensures { (pairs : List (List ℕ)) → are_as_many (Pairs ∷ []) pairs ≡ true →
        result ≡ find (matches (codes "host" ∷ codes "wait" ∷ third.now ∷ pairs)) forms_outside }
{
    if is(third, "all") {
        Some(HostWaitAllLine)
    } else if is(third, "any") {
        Some(HostWaitAnyLine)
    } else {
        None
    }
}

/// The form of `host`, `poll` and this word before pairs.
fn host_poll_form(third: &[u8]) -> Option<LineForm>
    ensures { (pairs : List (List ℕ)) → are_as_many (Pairs ∷ []) pairs ≡ true →
        result ≡ find (matches (codes "host" ∷ codes "poll" ∷ third.now ∷ pairs)) forms_outside }
{
    if is(third, "all") {
        Some(HostPollAllLine)
    } else if is(third, "any") {
        Some(HostPollAnyLine)
    } else {
        None
    }
}

/// The form of `host` and these two words before pairs.
fn host_form_of_pairs(second: &[u8], third: &[u8]) -> Option<LineForm>
    ensures { (pairs : List (List ℕ)) → are_as_many (Pairs ∷ []) pairs ≡ true →
        result ≡ find (matches (codes "host" ∷ second.now ∷ third.now ∷ pairs)) forms_outside }
{
    if is(second, "wait") {
        host_wait_form(third)
    } else if is(second, "poll") {
        host_poll_form(third)
    } else {
        None
    }
}

/// The form of `host` before these words.
fn host_form(words: &[&[u8]]) -> Option<LineForm>
    ensures { result ≡ find (matches (codes "host" ∷ texts words.now)) forms_outside }
{
    match words {
        [second] => {
            if is(second, "idle") {
                Some(HostIdleLine)
            } else {
                None
            }
        }
        [second, _] => {
            if is(second, "read") {
                Some(HostReadLine)
            } else {
                None
            }
        }
        [second, third, _] => host_form_of_four(second, third),
        [second, third, pairs @ ..] => {
            if pairs.len() % 2 == 0 {
                host_form_of_pairs(second, third)
            } else {
                None
            }
        }
        _ => None,
    }
}

/// The form of words outside batches, but for the line that begins a schedule.
fn form_outside(words: &[&[u8]]) -> Option<LineForm>
    ensures { result ≡ find (matches (texts words.now)) forms_outside }
{
    let [first, after @ ..] = words else {
        return None;
    };
    if is(first, "host") {
        return host_form(after);
    }
    match after {
        [_] => form_of_two(first),
        [_, third] => form_of_three(first, third),
        _ => None,
    }
}

/// The form of two words in a batch.
fn form_of_two_in_batch(first: &[u8]) -> Option<LineForm>
    ensures { (second : List ℕ) → result ≡ find (matches (first.now ∷ second ∷ [])) forms_in_batch }
{
    if is(first, "wait") {
        Some(WaitBinaryLine)
    } else if is(first, "signal") {
        Some(SignalBinaryLine)
    } else if is(first, "fence") {
        Some(BatchFenceLine)
    } else {
        None
    }
}

/// The form of three words in a batch.
fn form_of_three_in_batch(first: &[u8]) -> Option<LineForm>
    ensures { (second third : List ℕ) → result ≡ find (matches (first.now ∷ second ∷ third ∷ [])) forms_in_batch }
{
    if is(first, "wait") {
        Some(WaitTimelineLine)
    } else if is(first, "signal") {
        Some(SignalTimelineLine)
    } else {
        None
    }
}

/// The form of five words in a batch.
fn form_of_five_in_batch(first: &[u8], fourth: &[u8]) -> Option<LineForm>
    ensures { (second third fifth : List ℕ) →
        result ≡ find (matches (first.now ∷ second ∷ third ∷ fourth.now ∷ fifth ∷ [])) forms_in_batch }
{
    if is(first, "fill") {
        if is(fourth, "whole") {
            Some(FillWholeLine)
        } else {
            Some(FillLine)
        }
    } else {
        None
    }
}

/// The form of words in a batch, but for those that the second version adds.
fn form_in_batch(words: &[&[u8]]) -> Option<LineForm>
    ensures { result ≡ find (matches (texts words.now)) forms_in_batch }
{
    match words {
        [first] => {
            if is(first, "end") {
                Some(EndLine)
            } else {
                None
            }
        }
        [first, _] => form_of_two_in_batch(first),
        [first, _, _] => form_of_three_in_batch(first),
        [first, _, _, _] => {
            if is(first, "update") {
                Some(UpdateLine)
            } else {
                None
            }
        }
        [first, _, _, fourth, _] => form_of_five_in_batch(first, fourth),
        [first, _, _, _, _, _] => {
            if is(first, "copy") {
                Some(CopyLine)
            } else {
                None
            }
        }
        _ => None,
    }
}

/// Whether these words hold a wait back.
fn hold_back(first: &[u8], word: &[u8]) -> bool
    ensures { result ≡ (bytes_eq first.now (codes "wait") && bytes_eq word.now (codes "from")) }
{
    is(first, "wait") && is(word, "from")
}

/// The form of words in a batch of the second version, of those that it adds: waits that hold back a part of the batch.
fn held_form(words: &[&[u8]]) -> Option<LineForm>
    ensures { result ≡ find (matches (texts words.now)) (held_forms 2) }
{
    match words {
        [first, _, _, fourth, _] => {
            if hold_back(first, fourth) {
                Some(HeldTimelineLine)
            } else {
                None
            }
        }
        [first, _, third, _] => {
            if hold_back(first, third) {
                Some(HeldBinaryLine)
            } else {
                None
            }
        }
        _ => None,
    }
}

/// The form of words in a schedule.
fn form_in_schedule(words: &[&[u8]]) -> Option<LineForm>
    ensures { result ≡ find (matches (texts words.now)) forms_in_schedule }
{
    match words {
        [_] => Some(TurnLine),
        [_, _] => Some(TurnsLine),
        _ => None,
    }
}

/// The form of words that begin a schedule, which stand in a text with one alone.
fn schedule_form(form: Form, words: &[&[u8]]) -> Option<LineForm>
    ensures { result ≡ find (matches (texts words.now)) (schedule_forms form) }
{
    match (form, words) {
        (Form::Scheduled, [first]) => {
            if is(first, "schedule") {
                Some(ScheduleLine)
            } else {
                None
            }
        }
        _ => None,
    }
}

/// The form of words in a batch of a version.
fn form_in_version(version: u32, words: &[&[u8]]) -> Option<LineForm>
    ensures { result ≡ find (matches (texts words.now)) (forms_of Plain version InBatch) }
{
    if version == 2 {
        if let Some(found) = held_form(words) {
            return Some(found);
        }
    }
    form_in_batch(words)
}

/// The form of a line's words in a part of a text of this form and version. The line that names the version
/// is none of them.
#[inline(always)]
pub fn form_of(form: Form, version: u32, section: Section, words: &[&[u8]]) -> Option<LineForm>
    ensures { result ≡ find (matches (texts words.now)) (forms_of form version section) }
{
    match section {
        Section::Outside => {
            if let Some(found) = form_outside(words) {
                return Some(found);
            }
            schedule_form(form, words)
        }
        Section::InBatch => form_in_version(version, words),
        Section::InSchedule => form_in_schedule(words),
    }
}
