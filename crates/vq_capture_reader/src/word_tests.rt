//! The words of a line, each read once at its place: what it says, and which tests of its place it passes.
ghost use Rattle.std.specs.Prelude.{◌≡◌, [], OnOk, IfOk, is_some, map, zip, true};
ghost use Rattle.vq_lexer.specs.Words.{texts};
ghost use Rattle.vq_model.specs.Text.{is_name};
ghost use Rattle.vq_capture.specs.LineFaults.{kind_number, same_kind};
ghost use Rattle.vq_capture.specs.Context.{nothing_above};
ghost use Rattle.vq_capture.specs.LineForms.{EndedName, NameOf, NewName, Numeral, ThreadName};
ghost use Rattle.vq_capture_reader.specs.NameLists.{names_of};
ghost use Rattle.vq_capture_reader.specs.Slots.{place};
ghost use Rattle.vq_capture_reader.specs.Said.{both, first_fault, said_at, tests_at, tests_of};
ghost use Rattle.vq_capture_reader.specs.declared.said.Said.TheVariants.{Stages};
ghost use Rattle.vq_capture_reader.specs.Things.{names_and_thread};

use crate::names::Names;
use crate::said::Said;
use crate::slots::Slot;
use std::alloc::AllocError;
use vq_capture::capture::FaultKind;
use vq_capture::stage::Scope;
use vq_capture::statement::Kind;
use vq_capture_forms::{access_scope_of, scope_of};
use vq_lexer::{is_name, numeral};

/// Which tests words pass, each at its place.
#[derive(Clone, Copy)]
pub struct WordTests {
    /// A name's place holds a name.
    pub shaped: bool,
    /// A numeral's place holds a numeral.
    pub numeric: bool,
    /// A place of stages holds stages.
    pub staged: bool,
    /// A name is declared, of the kind that its place needs.
    pub known: bool,
    /// A name that is declared here is new.
    pub new: bool,
}

/// A word at its place: what it says, and which tests it passes.
#[derive(Clone, Copy)]
struct ReadWord {
    said: Said,
    tests: WordTests,
}

fn kind_number(kind: Kind) -> u8
    ensures { result ≡ kind_number kind }
{
    match kind {
        Kind::Queue => 0,
        Kind::Binary => 1,
        Kind::Timeline => 2,
        Kind::Fence => 3,
        Kind::Event => 4,
        Kind::Resource => 5,
        Kind::Thread => 6,
        Kind::Handed => 7,
    }
}

fn same_kind(first: Kind, second: Kind) -> bool
    ensures { result ≡ same_kind first second }
{
    kind_number(first) == kind_number(second)
}

/// All tests are passed.
fn all_pass() -> WordTests
    ensures { result ≡ record { shaped = true; numeric = true; staged = true; known = true; new = true } }
{
    WordTests {
        shaped: true,
        numeric: true,
        staged: true,
        known: true,
        new: true,
    }
}

/// The tests that two pass.
fn both(a: WordTests, b: WordTests) -> WordTests
    ensures { result ≡ both a b }
{
    WordTests {
        shaped: a.shaped && b.shaped,
        numeric: a.numeric && b.numeric,
        staged: a.staged && b.staged,
        known: a.known && b.known,
        new: a.new && b.new,
    }
}

/// The tests of a word where a name stands.
fn name_tests(word: &[u8], known: bool, new: bool) -> WordTests
    ensures { result ≡ record {
      shaped = is_name word.now;
      numeric = true;
      staged = true;
      known = known;
      new = new;
    } }
{
    WordTests {
        shaped: is_name(word),
        known,
        new,
        ..all_pass()
    }
}

/// A name that is declared here.
fn read_new(names: &Names, word: &[u8]) -> ReadWord
    ensures said { result.said ≡ said_at (names_of names.now) (NewName, word.now) }
    ensures tests { result.tests ≡ tests_at (names_and_thread (names_of names.now) 0) (NewName, word.now) }
{
    let thing = names.get(word);
    ReadWord {
        said: Said::Name(thing),
        tests: name_tests(word, true, thing.is_none()),
    }
}

/// A name of a kind.
fn read_of(names: &Names, kind: Kind, word: &[u8]) -> ReadWord
    ensures said { result.said ≡ said_at (names_of names.now) (NameOf kind, word.now) }
    ensures tests { result.tests ≡ tests_at (names_and_thread (names_of names.now) 0) (NameOf kind, word.now) }
{
    let thing = names.get(word);
    let known = match thing {
        Some(thing) => same_kind(thing.kind, kind),
        None => false,
    };
    ReadWord {
        said: Said::Name(thing),
        tests: name_tests(word, known, true),
    }
}

/// The name of a thread, which may be new.
fn read_thread(names: &Names, word: &[u8]) -> ReadWord
    ensures said { result.said ≡ said_at (names_of names.now) (ThreadName, word.now) }
    ensures tests { result.tests ≡ tests_at (names_and_thread (names_of names.now) 0) (ThreadName, word.now) }
{
    let thing = names.get(word);
    let known = match thing {
        Some(thing) => same_kind(thing.kind, Kind::Thread),
        None => true,
    };
    ReadWord {
        said: Said::Name(thing),
        tests: name_tests(word, known, true),
    }
}

/// A name that ends, which isn't that of the thread that goes on.
fn read_ended(names: &Names, thread: u64, word: &[u8]) -> ReadWord
    ensures said { result.said ≡ said_at (names_of names.now) (EndedName, word.now) }
    ensures tests { result.tests ≡ tests_at (names_and_thread (names_of names.now) thread) (EndedName, word.now) }
{
    let thing = names.get(word);
    let known = match thing {
        Some(thing) => thing.line != thread,
        None => false,
    };
    ReadWord {
        said: Said::Name(thing),
        tests: name_tests(word, known, true),
    }
}

/// A numeral.
fn read_number(word: &[u8]) -> ReadWord
    ensures said { result.said ≡ said_at [] (Numeral, word.now) }
    ensures tests { result.tests ≡ tests_at nothing_above (Numeral, word.now) }
{
    let number = numeral(word);
    ReadWord {
        said: Said::Number(number),
        tests: WordTests {
            numeric: number.is_some(),
            ..all_pass()
        },
    }
}

/// Stages.
fn read_stages(scope: Option<Scope>) -> ReadWord
    ensures said { result.said ≡ Stages scope }
    ensures tests { result.tests ≡ record {
      shaped = true;
      numeric = true;
      staged = is_some scope;
      known = true;
      new = true;
    } }
{
    ReadWord {
        said: Said::Stages(scope),
        tests: WordTests {
            staged: scope.is_some(),
            ..all_pass()
        },
    }
}

/// A word at its place.
fn read_word(names: &Names, thread: u64, slot: Slot, word: &[u8]) -> ReadWord
    ensures said { result.said ≡ said_at (names_of names.now) (place slot, word.now) }
    ensures tests { result.tests ≡ tests_at (names_and_thread (names_of names.now) thread) (place slot, word.now) }
{
    match slot {
        Slot::New => read_new(names, word),
        Slot::Of(kind) => read_of(names, kind, word),
        Slot::OfThread => read_thread(names, word),
        Slot::Ended => read_ended(names, thread, word),
        Slot::Number => read_number(word),
        Slot::Scope => read_stages(scope_of(word)),
        Slot::AccessScope => read_stages(access_scope_of(word)),
    }
}

/// Puts what the words of a line say, each at its place, in place of what those of the line before said. It gives the
/// tests that all of them pass.
pub fn read_words(
    names: &Names,
    thread: u64,
    slots: &[Slot],
    words: &[&[u8]],
    said: &mut Vec<Said>,
) -> Result<WordTests, AllocError>
    ensures said { OnOk result (said.new.items
        ≡ map (said_at (names_of names.now)) (zip (map place slots.now) (texts words.now))) }
    ensures tests { IfOk result (λ tests. tests
        ≡ tests_of (names_and_thread (names_of names.now) thread) (zip (map place slots.now) (texts words.now))) }
{
    said.clear();
    let mut tests = all_pass();
    let mut at = 0;
    while at < slots.len() && at < words.len() {
        let word = read_word(names, thread, slots[at], words[at]);
        tests = both(tests, word.tests);
        said.push(word.said)?;
        at += 1;
    }
    Ok(tests)
}

/// The first fault of a line, by the tests that its words pass, and by whether it is disordered, out of range and
/// unreleased.
pub fn first_fault(
    tests: WordTests,
    disordered: bool,
    far: bool,
    unreleased: bool,
) -> Option<FaultKind>
    ensures { result ≡ first_fault tests disordered far unreleased }
{
    if !tests.shaped {
        return Some(FaultKind::Syntax);
    }
    if disordered {
        return Some(FaultKind::Order);
    }
    if !tests.numeric {
        return Some(FaultKind::Number);
    }
    if !tests.staged {
        return Some(FaultKind::Stages);
    }
    if !tests.known {
        return Some(FaultKind::Name);
    }
    if !tests.new {
        return Some(FaultKind::Twice);
    }
    if far {
        return Some(FaultKind::Range);
    }
    if unreleased {
        return Some(FaultKind::NoSignal);
    }
    None
}
