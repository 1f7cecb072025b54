//! How a run of the program ends.
//!
//! Source: this project's own, where an item names no other.
ghost use Rattle.std.specs.Prelude.{◌≡◌};
ghost use Rattle.vq_run.specs.Ends.{status_number};

/// How a run ended. Its number is the program's exit status.
#[derive(Clone, Copy, Debug, PartialEq, Eq)]
pub enum Status {
    /// The whole text was written.
    Done,
    /// The words of the command line are outside its grammar; the line that says so was written.
    BadWords,
    /// The input is too long or faulty; the line that says so was written.
    Refused,
    /// The source failed; nothing was written.
    ReadFault,
    /// The sink failed; a part of the text was written.
    WriteFault,
    /// Want of memory; nothing was written.
    Memory,
}

impl Status {
    /// The exit status of the program, from 0 to 5.
    pub fn number(self) -> u8
        ensures { result ≡ status_number self }
    {
        match self {
            Status::Done => 0,
            Status::BadWords => 1,
            Status::Refused => 2,
            Status::ReadFault => 3,
            Status::WriteFault => 4,
            Status::Memory => 5,
        }
    }
}
