ghost use Rattle.std.specs.Prelude.{◌≡◌, ◌<◌, ◌≤◌, length, take, None, IfOk, IfSome, MatchResult};
ghost use Rattle.std.specs.Io.KnownBytes.{Appends, ReadConsumes};
ghost use Rattle.vq_port.specs.Faults.{one_more};

use crate::failed::count_fault;
use crate::{Failed, Sink, Source};
use std::io::{Read, Stdin, Stdout, Write};
use std::marker::Model;

/// Standard input as a source. It tells nothing of its bytes, and each error counts as a fault.
/// This project's rule.
#[derive(Drop)]
pub struct StdSource {
    input: Stdin,
    faults: u64,
}

impl Model for StdSource {
    ghost use Rattle.std.specs.Prelude.{ℕ};

    ghost Value = { ℕ };

    ghost view = { λ s. s.faults };
}

impl StdSource {
    /// A source over standard input, with no fault so far.
    pub fn new(input: Stdin) -> StdSource
        ensures { result ≡ 0 }
    {
        StdSource { input, faults: 0 }
    }
}

impl Source for StdSource {
    ghost left = { λ _. None };

    ghost faults = { λ s. s };

    /// An error of standard input, and no other answer, counts as a fault.
    fn read(&mut self, piece: &mut [u8]) -> Result<usize, Failed>
        ensures at_most { IfOk result (λ count. count ≤ length piece.old) }
        ensures faults { MatchResult result (λ _. self.new ≡ self.old) (λ _. self.new ≡ one_more self.old) }
        ensures counted { self.old ≤ self.new }
    {
        read_counted(&mut self.input, &mut self.faults, piece)
    }
}

/// Standard output as a sink. It tells nothing of its bytes, and flushes each write. Each error counts
/// as a fault, and so does a write that takes nothing of a piece that isn't empty. This project's rule.
#[derive(Drop)]
pub struct StdSink {
    output: Stdout,
    faults: u64,
}

impl Model for StdSink {
    ghost use Rattle.std.specs.Prelude.{ℕ};

    ghost Value = { ℕ };

    ghost view = { λ s. s.faults };
}

impl StdSink {
    /// A sink over standard output, with no fault so far.
    pub fn new(output: Stdout) -> StdSink
        ensures { result ≡ 0 }
    {
        StdSink { output, faults: 0 }
    }
}

impl Sink for StdSink {
    ghost written = { λ _. None };

    ghost faults = { λ s. s };

    /// A write fails where standard output answers an error, at the write or the flush, or takes
    /// nothing of a piece that isn't empty.
    fn write(&mut self, piece: &[u8]) -> Result<usize, Failed>
        ensures at_most { IfOk result (λ count. count ≤ length piece.now) }
        ensures at_least { IfOk result (λ count. 0 < length piece.now → 0 < count) }
        ensures faults { MatchResult result (λ _. self.new ≡ self.old) (λ _. self.new ≡ one_more self.old) }
        ensures counted { self.old ≤ self.new }
    {
        write_counted(&mut self.output, &mut self.faults, piece)
    }
}

// Reads once, and counts an error as a fault.
fn read_counted<R: Read>(input: &mut R, faults: &mut u64, piece: &mut [u8]) -> Result<usize, Failed>
    ensures at_most { IfOk result (λ count. count ≤ length piece.old) }
    ensures bytes { ReadConsumes (R.remaining input.old) (R.remaining input.new) result piece.new }
    ensures faults { MatchResult result (λ _. faults.new ≡ faults.old) (λ _. faults.new ≡ one_more faults.old) }
    ensures counted { faults.old ≤ faults.new }
{
    match input.read(piece) {
        Ok(count) => Ok(count),
        Err(_) => Err(count_fault(faults)),
    }
}

// Writes once and flushes, and counts as a fault where either fails.
fn write_counted<W: Write>(output: &mut W, faults: &mut u64, piece: &[u8]) -> Result<usize, Failed>
    ensures at_most { IfOk result (λ count. count ≤ length piece.now) }
    ensures at_least { IfOk result (λ count. 0 < length piece.now → 0 < count) }
    ensures bytes { IfOk result (λ count.
        Appends (W.contents output.old) (W.contents output.new) (take count piece.now)) }
    ensures faults { MatchResult result (λ _. faults.new ≡ faults.old) (λ _. faults.new ≡ one_more faults.old) }
    ensures counted { faults.old ≤ faults.new }
{
    match write_flushed(output, piece) {
        Some(count) => Ok(count),
        None => Err(count_fault(faults)),
    }
}

// Writes and flushes. `None` where either fails, or where nothing is taken of a piece that isn't empty.
fn write_flushed<W: Write>(output: &mut W, piece: &[u8]) -> Option<usize>
    ensures at_most { IfSome result (λ count. count ≤ length piece.now) }
    ensures at_least { IfSome result (λ count. 0 < length piece.now → 0 < count) }
    ensures bytes { IfSome result (λ count.
        Appends (W.contents output.old) (W.contents output.new) (take count piece.now)) }
{
    let count = output.write(piece).ok()?;
    output.flush().ok()?;
    if count == 0 && !piece.is_empty() {
        return None;
    }
    Some(count)
}
