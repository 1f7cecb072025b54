//! The form of a line, by its first word and how many there are.
ghost use Rattle.std.specs.Prelude.{◌≡◌, [], ◌∷◌};
ghost use Rattle.vq_lexer.specs.Words.{texts};
ghost use Rattle.vq_capture.specs.LineForms.{form_inside, form_of, form_outside};

use crate::parts::is;
use vq_capture::form::Form;

/// The form of a line outside a batch that has 1 word, by the first.
fn outside_of_1(word: &[u8]) -> Option<Form>
    ensures { result ≡ form_outside (word.now ∷ []) }
{
    if is(word, "cut") {
        return Some(Form::CutLine);
    }
    None
}

/// The form of a line outside a batch that has 2 words, by the first.
fn outside_of_2(word: &[u8]) -> Option<Form>
    ensures { result ≡ form_outside (word.now ∷ [] ∷ []) }
{
    if is(word, "queue") {
        return Some(Form::QueueLine);
    }
    if is(word, "binary") {
        return Some(Form::BinaryLine);
    }
    if is(word, "fence") {
        return Some(Form::FenceLine);
    }
    if is(word, "event") {
        return Some(Form::EventLine);
    }
    if is(word, "gone") {
        return Some(Form::GoneLine);
    }
    if is(word, "thread") {
        return Some(Form::ThreadLine);
    }
    if is(word, "after") {
        return Some(Form::AfterLine);
    }
    if is(word, "submit") {
        return Some(Form::SubmitLine);
    }
    if is(word, "hand") {
        return Some(Form::HandLine);
    }
    if is(word, "saw") {
        return Some(Form::SawFenceLine);
    }
    if is(word, "idle") {
        return Some(Form::IdleLine);
    }
    None
}

/// The form of a line outside a batch that has 3 words, by the first.
fn outside_of_3(word: &[u8]) -> Option<Form>
    ensures { result ≡ form_outside (word.now ∷ [] ∷ [] ∷ []) }
{
    if is(word, "timeline") {
        return Some(Form::TimelineLine);
    }
    if is(word, "resource") {
        return Some(Form::ResourceLine);
    }
    if is(word, "submit") {
        return Some(Form::SubmitHandedLine);
    }
    if is(word, "signal") {
        return Some(Form::HostSignalLine);
    }
    if is(word, "saw") {
        return Some(Form::SawValueLine);
    }
    None
}

/// The form of a line outside a batch that has 4 words, by the first.
fn outside_of_4(word: &[u8]) -> Option<Form>
    ensures { result ≡ form_outside (word.now ∷ [] ∷ [] ∷ [] ∷ []) }
{
    if is(word, "read") {
        return Some(Form::HostReadLine);
    }
    if is(word, "write") {
        return Some(Form::HostWriteLine);
    }
    None
}

/// The form of a line outside a batch.
fn form_outside(words: &[&[u8]]) -> Option<Form>
    ensures { result ≡ form_outside (texts words.now) }
{
    match words {
        [word] => outside_of_1(word),
        [word, _] => outside_of_2(word),
        [word, _, _] => outside_of_3(word),
        [word, _, _, _] => outside_of_4(word),
        _ => None,
    }
}

/// The form of a line inside a batch that has 1 word, by the first.
fn inside_of_1(word: &[u8]) -> Option<Form>
    ensures { result ≡ form_inside (word.now ∷ []) }
{
    if is(word, "next") {
        return Some(Form::NextLine);
    }
    if is(word, "end") {
        return Some(Form::EndLine);
    }
    None
}

/// The form of a line inside a batch that has 2 words, by the first.
fn inside_of_2(word: &[u8]) -> Option<Form>
    ensures { result ≡ form_inside (word.now ∷ [] ∷ []) }
{
    if is(word, "fence") {
        return Some(Form::BatchFenceLine);
    }
    None
}

/// The form of a line inside a batch that has 3 words, by the first.
fn inside_of_3(word: &[u8]) -> Option<Form>
    ensures { result ≡ form_inside (word.now ∷ [] ∷ [] ∷ []) }
{
    if is(word, "wait") {
        return Some(Form::WaitBinaryLine);
    }
    if is(word, "barrier") {
        return Some(Form::BarrierLine);
    }
    if is(word, "set") {
        return Some(Form::SetLine);
    }
    if is(word, "await") {
        return Some(Form::AwaitLine);
    }
    if is(word, "signal") {
        return Some(Form::SignalBinaryLine);
    }
    None
}

/// The form of a line inside a batch that has 4 words, by the first.
fn inside_of_4(word: &[u8]) -> Option<Form>
    ensures { result ≡ form_inside (word.now ∷ [] ∷ [] ∷ [] ∷ []) }
{
    if is(word, "wait") {
        return Some(Form::WaitTimelineLine);
    }
    if is(word, "signal") {
        return Some(Form::SignalTimelineLine);
    }
    None
}

/// The form of a line inside a batch that has 5 words, by the first.
fn inside_of_5(word: &[u8]) -> Option<Form>
    ensures { result ≡ form_inside (word.now ∷ [] ∷ [] ∷ [] ∷ [] ∷ []) }
{
    if is(word, "read") {
        return Some(Form::ReadLine);
    }
    if is(word, "write") {
        return Some(Form::WriteLine);
    }
    None
}

/// The form of a line inside a batch that has 6 words, by the first.
fn inside_of_6(word: &[u8]) -> Option<Form>
    ensures { result ≡ form_inside (word.now ∷ [] ∷ [] ∷ [] ∷ [] ∷ [] ∷ []) }
{
    if is(word, "barrier") {
        return Some(Form::TransitionLine);
    }
    None
}

/// The form of a line of a batch.
fn form_inside(words: &[&[u8]]) -> Option<Form>
    ensures { result ≡ form_inside (texts words.now) }
{
    match words {
        [word] => inside_of_1(word),
        [word, _] => inside_of_2(word),
        [word, _, _] => inside_of_3(word),
        [word, _, _, _] => inside_of_4(word),
        [word, _, _, _, _] => inside_of_5(word),
        [word, _, _, _, _, _] => inside_of_6(word),
        _ => None,
    }
}

/// The form of a line by its words, of a batch or outside one; none where its first word and their number are of none.
pub fn form_of(in_batch: bool, words: &[&[u8]]) -> Option<Form>
    ensures { result ≡ form_of in_batch (texts words.now) }
{
    if in_batch {
        form_inside(words)
    } else {
        form_outside(words)
    }
}
