//! How a judgement ends.
//!
//! Source: this project's own.
ghost use Rattle.std.specs.Prelude.{◌≡◌};
ghost use Rattle.vq_capture_judge.specs.Endings.{status_number};

/// How a judgement ended. Its number is the program's exit status.
#[derive(Clone, Copy, Debug, PartialEq, Eq)]
pub enum JudgeStatus {
    /// `ordered` was written.
    Ordered,
    /// A race or a faulty line was written.
    Refused,
    /// The source failed; nothing was written.
    ReadFault,
    /// The sink failed; a part of the line was written.
    WriteFault,
    /// Want of memory, or 2^64 - 1 lines or reads; nothing was written.
    Memory,
}

impl JudgeStatus {
    /// The exit status of the program, from 0 to 5.
    pub fn number(self) -> u8
        ensures { result ≡ status_number self }
    {
        match self {
            JudgeStatus::Ordered => 0,
            JudgeStatus::Refused => 2,
            JudgeStatus::ReadFault => 3,
            JudgeStatus::WriteFault => 4,
            JudgeStatus::Memory => 5,
        }
    }
}
