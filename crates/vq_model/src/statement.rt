//! A script's lines as statements, and the faults of lines.
//!
//! Source: this project's own, where an item names no other.
use crate::list::Name;
use crate::script::{ActorName, Command, HostStep, Mode, Pair, SemaphoreKind};
use std::fmt;

/// Whether a text ends with a schedule.
#[derive(Clone, Copy)]
pub enum Form {
    /// It has none.
    Plain,
    /// It ends with one.
    Scheduled,
}

/// The kinds of faults, in their order within a line.
#[derive(Clone, Copy, Debug, PartialEq, Eq)]
pub enum FaultKind {
    /// A byte or a name isn't as it must be, or the words match no line of their place.
    Syntax,
    /// A declaration after the first submission, or a line of a batch in the wrong part.
    Order,
    /// No numeral at a numeral's place, or too large a one.
    Number,
    /// A name that isn't declared, or is of another kind.
    Name,
    /// A name that is declared already.
    Twice,
    /// A size, an offset or a count out of range.
    Range,
    /// A copy whose two ranges share a byte.
    Overlap,
    /// A quantity past its limit.
    Limit,
}

impl fmt::Display for FaultKind {
    ghost use Rattle.std.specs.Prelude.{Some};
    ghost use Rattle.vq_model.specs.Refusals.{kind_words};

    ghost output = { λ kind. Some (kind_words kind) };

    fn fmt<W: fmt::Write>(&self, f: &mut fmt::Formatter<W>) -> fmt::Result {
        match self {
            FaultKind::Syntax => write!(f, "syntax"),
            FaultKind::Order => write!(f, "order"),
            FaultKind::Number => write!(f, "number"),
            FaultKind::Name => write!(f, "name"),
            FaultKind::Twice => write!(f, "twice"),
            FaultKind::Range => write!(f, "range"),
            FaultKind::Overlap => write!(f, "overlap"),
            FaultKind::Limit => write!(f, "limit"),
        }
    }
}

/// The parts of a text.
#[derive(Clone, Copy)]
pub enum Section {
    Outside,
    InBatch,
    InSchedule,
}

/// The forms of lines.
#[derive(Clone, Copy)]
pub enum LineForm {
    VersionLine,
    BufferLine,
    TimelineLine,
    BinaryLine,
    FenceLine,
    QueueLine(Mode),
    SubmitLine,
    HostSignalLine,
    HostWaitAllLine,
    HostWaitAnyLine,
    HostPollAllLine,
    HostPollAnyLine,
    HostReadLine,
    HostFenceWaitLine,
    HostFencePollLine,
    HostFenceResetLine,
    HostIdleLine,
    ScheduleLine,
    WaitTimelineLine,
    WaitBinaryLine,
    HeldTimelineLine,
    HeldBinaryLine,
    FillWholeLine,
    FillLine,
    UpdateLine,
    CopyLine,
    SignalTimelineLine,
    SignalBinaryLine,
    BatchFenceLine,
    EndLine,
    TurnLine,
    TurnsLine,
}

/// What a line says.
#[derive(Drop)]
pub enum Statement {
    HasVersion { version: u32 },
    DeclareBuffer { name: Name, size: u32 },
    DeclareSemaphore { name: Name, kind: SemaphoreKind },
    DeclareQueue { name: Name, mode: Mode },
    BeginBatch { queue: u32 },
    AddWait { pair: Pair, from: u32 },
    AddCommand { command: Command },
    AddSignal { pair: Pair },
    AddFence { fence: u32 },
    EndBatch,
    TakeHostStep { step: HostStep },
    BeginSchedule,
    TakeTurns { actor: ActorName, count: u32 },
}

/// A statement with the number of its line, from 1.
#[derive(Drop)]
pub struct Line {
    pub number: u32,
    pub statement: Statement,
}
