//! A given trace: where it stands in a text, and what its lines say.
ghost use Rattle.std.specs.Prelude.{◌≡◌};

use std::alloc::AllocError;
use vq_model::list::{Bytes, List};
use vq_model::plan::Event;
use vq_model::script::ActorName;

/// Where a text is cut into a script and a trace. The places are counted in bytes from 0, lines from 1.
#[derive(Clone, Copy)]
pub struct Cut {
    /// Where the line begins that cuts.
    pub script_end: usize,
    /// The place after that line.
    pub trace_start: usize,
    /// The number of the line after it.
    pub first: u32,
}

/// What a line before the last of a trace says: a turn.
#[derive(Clone, Copy)]
pub struct TraceTurn {
    pub number: u64,
    pub actor: ActorName,
    /// The event that it made, or none.
    pub event: Option<Event>,
}

/// What the line says that ends the turns of a trace.
#[derive(Clone, Copy)]
pub struct TraceEnd {
    /// Whether it says that all jobs are finished.
    pub finished: bool,
    /// How many jobs it says are left; 0 where it says that all are finished.
    pub left: u32,
}

/// What a line of a trace says.
#[derive(Clone, Copy)]
pub enum TraceLine {
    /// Nothing: it has no words.
    Blank,
    Turn(TraceTurn),
    End(TraceEnd),
    /// It is none of these.
    Faulty,
}

/// An event of a given trace, with its line.
#[derive(Clone, Copy)]
pub struct GivenEvent {
    pub line: u32,
    pub actor: ActorName,
    pub event: Event,
}

/// A line after the end of the turns: its words, with one space between two.
#[derive(Drop)]
pub struct GivenLine {
    pub line: u32,
    pub text: Bytes,
}

/// A trace that was read.
#[derive(Drop)]
pub struct GivenTrace {
    /// The events, in the order of the lines.
    pub events: List<GivenEvent>,
    /// The line that ends the turns.
    pub end_line: u32,
    /// Whether it says that all jobs are finished.
    pub finished: bool,
    /// How many jobs it says are left; 0 where it says that all are finished.
    pub left: u32,
    /// The lines after it that have words.
    pub rest: List<GivenLine>,
}

/// Why a trace isn't read.
#[derive(Clone, Copy, Debug, PartialEq, Eq)]
pub enum TraceFault {
    /// This is the first line that says nothing which a trace may say there; it may be the one after the last.
    At { line: u32 },
    /// Want of memory.
    Memory,
}

impl From<AllocError> for TraceFault {
    ghost use Rattle.vq_given.specs.declared.given.TraceFault.TheVariants.{Memory};

    ghost from_gives = { λ _ fault. fault ≡ Memory };

    fn from(_: AllocError) -> TraceFault {
        TraceFault::Memory
    }
}
