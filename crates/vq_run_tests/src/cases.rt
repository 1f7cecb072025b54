//! Runs over ports in memory, compared with what they are to write and how they are to end.
use std::alloc::{AllocError, Global};
use std::marker::Sync;
use std::process::Abort;
use std::sync::Wait;
use std::thread::Threads;
use vq_port::{MemorySink, MemorySource};
use vq_rings::{Gate, OpenGate};
use vq_run::{Status, run};

pub(crate) const FILL: &str =
    "buffer X 8\nqueue Q immediate\nsubmit Q\nfill X 0 8 0x01020304\nend\n";

pub(crate) const FILLED: &str = "buffer X 8\n0403020104030201\nend\n";

/// How a port moves bytes: at most so many with a call, and it fails at the call with this number; none has number 0.
#[derive(Clone, Copy)]
pub(crate) struct Moves {
    pub(crate) piece: usize,
    pub(crate) fails: u32,
}

impl Moves {
    /// A source of these bytes.
    fn source(self, alloc: Global, input: &[u8]) -> Result<MemorySource, AllocError> {
        let fails = Vec::from_slice(alloc, &[self.fails])?;
        let bytes = Vec::from_slice(alloc, input)?;
        Ok(MemorySource::new(bytes, self.piece.max(1), fails))
    }

    /// A sink with nothing written.
    fn sink(self, alloc: Global) -> Result<MemorySink, AllocError> {
        let fails = Vec::from_slice(alloc, &[self.fails])?;
        MemorySink::new(alloc, self.piece.max(1), fails)
    }
}

/// Large pieces, and no failure.
const STEADY: Moves = Moves {
    piece: 4096,
    fails: 0,
};

/// What a run is given, and what it is to write and how it is to end.
#[derive(Clone, Copy)]
pub(crate) struct Case<'a> {
    pub(crate) words: &'a [&'a str],
    pub(crate) reads: Moves,
    pub(crate) writes: Moves,
    pub(crate) input: &'a [u8],
    pub(crate) text: &'a [u8],
    pub(crate) status: Status,
}

impl<'a> Case<'a> {
    /// A run over ports that don't fail.
    pub(crate) fn new(
        words: &'a [&'a str],
        input: &'a [u8],
        text: &'a [u8],
        status: Status,
    ) -> Case<'a> {
        Case {
            words,
            reads: STEADY,
            writes: STEADY,
            input,
            text,
            status,
        }
    }
}

/// Words as a command line has them. For want of memory some are missing.
fn words_of(alloc: Global, words: &[&str]) -> Vec<String> {
    let mut made = Vec::new(alloc);
    for word in words {
        let _ = add_word(alloc, &mut made, word);
    }
    made
}

/// Appends a word.
fn add_word(alloc: Global, words: &mut Vec<String>, word: &str) -> Result<(), AllocError> {
    let made = String::from_str(alloc, word)?;
    words.push(made)?;
    Ok(())
}

/// Whether a run over these ports ends as it is to.
fn ends_over<R: Threads + Wait + Sync, G: Gate>(
    rt: &R,
    alloc: Global,
    words: &[String],
    case: &Case,
    source: &mut MemorySource,
    sink: &mut MemorySink,
    gate: &G,
) -> bool {
    let ended = run(rt, alloc, words, source, sink, gate);
    ended == case.status && sink.written() == case.text
}

/// Whether a run over this source does.
fn ends_from<R: Threads + Wait + Sync, G: Gate>(
    rt: &R,
    alloc: Global,
    words: &[String],
    case: &Case,
    source: &mut MemorySource,
    gate: &G,
) -> bool {
    match case.writes.sink(alloc) {
        Ok(mut sink) => ends_over(rt, alloc, words, case, source, &mut sink, gate),
        Err(_) => false,
    }
}

/// Whether a run with these words does.
fn ends_with<R: Threads + Wait + Sync, G: Gate>(
    rt: &R,
    alloc: Global,
    words: &[String],
    case: &Case,
    gate: &G,
) -> bool {
    match case.reads.source(alloc, case.input) {
        Ok(mut source) => ends_from(rt, alloc, words, case, &mut source, gate),
        Err(_) => false,
    }
}

/// Whether a run with this gate writes and ends as it is to.
pub(crate) fn ends_at<R: Threads + Wait + Sync, G: Gate>(
    rt: &R,
    alloc: Global,
    case: &Case,
    gate: &G,
) -> bool {
    let words = words_of(alloc, case.words);
    words.len() == case.words.len() && ends_with(rt, alloc, words.as_slice(), case, gate)
}

/// Whether a run with an open gate does.
pub(crate) fn ends<R: Threads + Wait + Sync>(rt: &R, alloc: Global, case: &Case) -> bool {
    ends_at(rt, alloc, case, &OpenGate)
}

/// Runs each input, and compares the text that is written and how the run ends.
pub(crate) fn each_ends<'a, R: Threads + Wait + Abort + Sync>(
    rt: &R,
    alloc: Global,
    words: &'a [&'a str],
    status: Status,
    rows: &'a [(&'a str, &'a str)],
) {
    for (input, text) in rows {
        let case = Case::new(words, input.as_bytes(), text.as_bytes(), status);
        assert!(rt; ends(rt, alloc, &case), "{input:?}");
    }
}

/// Whether a run of `FILL` over ports that fail writes this and ends so. The sink takes eight bytes at a time.
pub(crate) fn fills_at<R: Threads + Wait + Sync>(
    rt: &R,
    alloc: Global,
    reads: Moves,
    write: u32,
    text: &str,
    status: Status,
) -> bool {
    let case = Case {
        words: &[],
        reads,
        writes: Moves {
            piece: 8,
            fails: write,
        },
        input: FILL.as_bytes(),
        text: text.as_bytes(),
        status,
    };
    ends(rt, alloc, &case)
}

/// Runs `FILL` with a fault at one read and one write by their numbers, over a source that gives so many bytes at a
/// time, and compares the text that is written and how the run ends.
pub(crate) fn each_fault_ends<R: Threads + Wait + Abort + Sync>(
    rt: &R,
    alloc: Global,
    piece: usize,
    rows: &[(u32, u32, &str, Status)],
) {
    for (fails, write, text, status) in rows {
        let reads = Moves {
            piece,
            fails: *fails,
        };
        assert!(rt;
            fills_at(rt, alloc, reads, *write, text, *status),
            "at read {fails}, write {write}"
        );
    }
}

/// Whether a run with these words says that they are wrong.
fn refuses_words<'a, R: Threads + Wait + Sync>(
    rt: &R,
    alloc: Global,
    words: &'a [&'a str],
    input: &'a str,
) -> bool {
    let case = Case::new(words, input.as_bytes(), b"error: words\n", Status::BadWords);
    ends(rt, alloc, &case)
}

/// Runs with the words of each row, which are to be refused.
pub(crate) fn each_is_refused<'a, R: Threads + Wait + Abort + Sync>(
    rt: &R,
    alloc: Global,
    rows: &'a [&'a [&'a str]],
    input: &'a str,
) {
    for words in rows {
        assert!(rt; refuses_words(rt, alloc, words, input), "{words:?}");
    }
}
