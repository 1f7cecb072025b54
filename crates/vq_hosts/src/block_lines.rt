//! The lines of blocks: their faults in the order of the kinds, and what they leave told.
ghost use Rattle.std.specs.Prelude.{◌≡◌, ◌<◌, ◌∷◌, ◌/◌, ◌%◌, ◌==◌, ◌&&◌, List, ℕ, codes, length, true, None, Some, []};
ghost use Rattle.std.specs.List.{list_all};
ghost use Rattle.std.specs.Str.{bytes_eq};
ghost use Rattle.vq_model.specs.Text.{is_plain, words_in};
ghost use Rattle.vq_model.specs.declared.statement.Form.TheVariants.{Plain};
ghost use Rattle.vq_blocks.specs.BlockFaults.{hosts_fault};
ghost use Rattle.vq_blocks.specs.Blocks.{Told, is_of_block};
ghost use Rattle.vq_script.specs.Reads.{HasRead};
ghost use Rattle.vq_lexer.specs.Words.{texts};
ghost use Rattle.vq_hosts.specs.BlockTests.{first_kind};
ghost use Rattle.vq_hosts.specs.BlockWords.{form_in};
ghost use Rattle.vq_blocks.specs.declared.block.BlockForm.TheVariants.{ThreadForm, WaitForm, SignalForm, EndForm};
ghost use Rattle.vq_hosts.specs.HasThreads.{HasThreads};
ghost use Rattle.vq_hosts.specs.HasTold.{ReadsBlock};

use crate::block_words::{BlockWords, block_words};
use crate::fault::HostsFault;
use crate::pairs::{are_timelines, marks, read_pairs};
use crate::threads::Threads;
use std::alloc::Global;
use vq_forms::{are_even, are_names, are_numerals, are_plain, next_word};
use vq_lexer::{is_name, numeral, owned_name};
use vq_model::script::Pair;
use vq_model::statement::FaultKind;
use vq_script::LineReader;

/// The tests of a block's line, in the order of the kinds.
#[derive(Clone, Copy)]
pub struct BlockTests {
    misshapen: bool,
    late: bool,
    unnumbered: bool,
    unknown: bool,
    named: bool,
    full: bool,
}

impl BlockTests {
    /// The first kind of fault.
    fn first(self) -> Option<FaultKind>
        ensures { result ≡ first_kind self }
    {
        if self.misshapen {
            return Some(FaultKind::Syntax);
        }
        if self.late {
            return Some(FaultKind::Order);
        }
        if self.unnumbered {
            return Some(FaultKind::Number);
        }
        if self.unknown {
            return Some(FaultKind::Name);
        }
        if self.named {
            return Some(FaultKind::Twice);
        }
        if self.full {
            return Some(FaultKind::Limit);
        }
        None
    }
}

/// The most queues and threads together, steps of all threads, and pairs of a step.
const MOST_LANES: usize = 16;

const MOST_STEPS: usize = 1024;

const MOST_PAIRS: usize = 16;

/// Begins the block of a thread of this name.
fn begin_thread(
    alloc: Global,
    reader: &LineReader,
    threads: &mut Threads,
    number: u32,
    name: &[u8],
    plain: bool,
) -> Result<(), HostsFault>
    ensures { (told : Told) (first : List ℕ) → HasRead Plain told.rest reader.now → HasThreads told threads.old →
        is_of_block told (first ∷ name.now ∷ []) ≡ true →
        plain ≡ list_all (list_all is_plain) (first ∷ name.now ∷ []) →
        form_in told.inside (first ∷ name.now ∷ []) ≡ Some ThreadForm →
        ReadsBlock told number (first ∷ name.now ∷ []) result threads.new }
{
    let shaped = is_name(name);
    let tests = BlockTests {
        misshapen: !plain | !shaped,
        late: reader.has_begun(),
        unnumbered: false,
        unknown: false,
        named: reader.is_declared(name) | threads.is_named(name),
        full: reader.queue_count() + threads.queues.len() >= MOST_LANES,
    };
    if let Some(kind) = tests.first() {
        return Err(HostsFault::At { line: number, kind });
    }
    let name = owned_name(alloc, name)?;
    threads.begin(number, name)?;
    Ok(())
}

/// Takes a signal of the last thread.
fn take_signal(
    alloc: Global,
    reader: &LineReader,
    threads: &mut Threads,
    number: u32,
    timeline: &[u8],
    value: &[u8],
    plain: bool,
) -> Result<(), HostsFault>
    requires { threads.old.inside ≡ true }
    ensures { (told : Told) (first : List ℕ) → HasRead Plain told.rest reader.now → HasThreads told threads.old →
        is_of_block told (first ∷ timeline.now ∷ value.now ∷ []) ≡ true →
        plain ≡ list_all (list_all is_plain) (first ∷ timeline.now ∷ value.now ∷ []) →
        form_in told.inside (first ∷ timeline.now ∷ value.now ∷ []) ≡ Some SignalForm →
        ReadsBlock told number (first ∷ timeline.now ∷ value.now ∷ []) result threads.new }
{
    let semaphore = reader.timeline(timeline);
    let payload = numeral(value);
    let tests = BlockTests {
        misshapen: !plain | !is_name(timeline),
        late: false,
        unnumbered: payload.is_none(),
        unknown: semaphore.is_none(),
        named: false,
        full: threads.batches.len() >= MOST_STEPS,
    };
    if let Some(kind) = tests.first() {
        return Err(HostsFault::At { line: number, kind });
    }
    let Some(semaphore) = semaphore else {
        unreachable!()
    };
    let Some(value) = payload else { unreachable!() };
    let signals = marks(alloc, number, &[Pair { semaphore, value }])?;
    threads.take(alloc, number, Vec::new(alloc), signals)?;
    Ok(())
}

/// Takes a wait of the last thread.
fn take_wait(
    alloc: Global,
    reader: &LineReader,
    threads: &mut Threads,
    number: u32,
    words: &[&[u8]],
    plain: bool,
) -> Result<(), HostsFault>
    requires { threads.old.inside ≡ true }
    ensures { (told : Told) (first : List ℕ) → HasRead Plain told.rest reader.now → HasThreads told threads.old →
        is_of_block told (first ∷ texts words.now) ≡ true →
        plain ≡ list_all (list_all is_plain) (first ∷ texts words.now) →
        form_in told.inside (first ∷ texts words.now) ≡ Some WaitForm →
        ReadsBlock told number (first ∷ texts words.now) result threads.new }
{
    let found = read_pairs(alloc, reader, words)?;
    let tests = BlockTests {
        misshapen: !plain | !found.shaped,
        late: false,
        unnumbered: !found.numeric,
        unknown: !found.known,
        named: false,
        full: (threads.batches.len() >= MOST_STEPS) | (found.pairs.len() > MOST_PAIRS),
    };
    if let Some(kind) = tests.first() {
        return Err(HostsFault::At { line: number, kind });
    }
    let waits = marks(alloc, number, &found.pairs)?;
    threads.take(alloc, number, waits, Vec::new(alloc))?;
    Ok(())
}

/// Ends the block of the last thread.
fn end_thread(threads: &mut Threads, number: u32, plain: bool) -> Result<(), HostsFault>
    ensures { (told : Told) (first : List ℕ) → HasThreads told threads.old →
        is_of_block told (first ∷ []) ≡ true →
        plain ≡ list_all (list_all is_plain) (first ∷ []) →
        form_in told.inside (first ∷ []) ≡ Some EndForm →
        ReadsBlock told number (first ∷ []) result threads.new }
{
    if !plain {
        return Err(HostsFault::At {
            line: number,
            kind: FaultKind::Syntax,
        });
    }
    threads.end();
    Ok(())
}

/// Reads a line of a block, of these words, whose bytes may stand outside a comment or not.
pub fn read_block(
    alloc: Global,
    reader: &LineReader,
    threads: &mut Threads,
    number: u32,
    words: &[&[u8]],
    plain: bool,
) -> Result<(), HostsFault>
    requires { plain ≡ list_all (list_all is_plain) (texts words.now) }
    ensures { (told : Told) → HasRead Plain told.rest reader.now → HasThreads told threads.old →
        is_of_block told (texts words.now) ≡ true →
        ReadsBlock told number (texts words.now) result threads.new }
{
    match block_words(threads.inside, words) {
        None => Err(HostsFault::At {
            line: number,
            kind: FaultKind::Syntax,
        }),
        Some(BlockWords::Thread { name }) => {
            begin_thread(alloc, reader, threads, number, name, plain)
        }
        Some(BlockWords::Wait { pairs }) => {
            take_wait(alloc, reader, threads, number, pairs, plain)
        }
        Some(BlockWords::Signal { timeline, value }) => {
            take_signal(alloc, reader, threads, number, timeline, value, plain)
        }
        Some(BlockWords::End) => end_thread(threads, number, plain),
    }
}

/// Whether a line inside a block waits, whose first word and what follows it these are.
fn is_wait(first: &[u8], pairs: &[u8]) -> bool
    ensures { result ≡ (bytes_eq first.now (codes "wait") && (length (words_in pairs.now) % 2 == 0)) }
{
    first == b"wait".as_slice() && are_even(pairs)
}

/// The first kind of the faults of a wait with these pairs, which are too many.
fn pairs_fault(reader: &LineReader, pairs: &[u8], plain: bool) -> FaultKind
    requires { 16 < length (words_in pairs.now) / 2 }
    ensures { (told : Told) (first : List ℕ) → HasRead Plain told.rest reader.now →
        is_of_block told (first ∷ words_in pairs.now) ≡ true →
        plain ≡ list_all (list_all is_plain) (first ∷ words_in pairs.now) →
        form_in told.inside (first ∷ words_in pairs.now) ≡ Some WaitForm →
        hosts_fault told (first ∷ words_in pairs.now) ≡ Some result }
{
    let tests = BlockTests {
        misshapen: !plain | !are_names(pairs),
        late: false,
        unnumbered: !are_numerals(pairs),
        unknown: !are_timelines(reader, pairs),
        named: false,
        full: true,
    };
    let Some(kind) = tests.first() else {
        unreachable!()
    };
    kind
}

/// The first kind of the faults of a line inside a block, whose words are those of a part: more than a line without a
/// fault has. They are found again from its bytes for each test, so that no list of them is kept.
pub fn many_fault(reader: &LineReader, part: &[u8]) -> FaultKind
    requires { 63 < length (words_in part.now) }
    ensures { (told : Told) → HasRead Plain told.rest reader.now → told.inside ≡ true →
        hosts_fault told (words_in part.now) ≡ Some result }
{
    let Some((first, pairs)) = next_word(part) else {
        unreachable!()
    };
    if !is_wait(first, pairs) {
        return FaultKind::Syntax;
    }
    pairs_fault(reader, pairs, are_plain(part))
}
