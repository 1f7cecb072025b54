//! The forms of lines.
//!
//! Source: this project's own.

/// A form of a line: its first word, and what stands at its other places.
#[derive(Clone, Copy, Debug, PartialEq, Eq)]
pub enum Form {
    QueueLine,
    BinaryLine,
    FenceLine,
    EventLine,
    TimelineLine,
    ResourceLine,
    GoneLine,
    ThreadLine,
    AfterLine,
    SubmitLine,
    HandLine,
    SubmitHandedLine,
    HostSignalLine,
    SawValueLine,
    SawFenceLine,
    IdleLine,
    HostReadLine,
    HostWriteLine,
    CutLine,
    WaitTimelineLine,
    WaitBinaryLine,
    ReadLine,
    WriteLine,
    NextLine,
    BarrierLine,
    TransitionLine,
    SetLine,
    AwaitLine,
    SignalTimelineLine,
    SignalBinaryLine,
    BatchFenceLine,
    EndLine,
}
