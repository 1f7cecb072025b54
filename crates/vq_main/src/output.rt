//! Standard output, as the program writes to it.
ghost use Rattle.std.specs.Prelude.{◌≡◌, ◌<◌, ◌≤◌, length, None, IfOk};

use crate::file_limit::room_left;
use std::marker::Model;
use vq_port::{Failed, Sink, StdSink};

/// Standard output as a sink, which tells nothing of its bytes. Each error counts as a fault, and so does a write for
/// which the limit on the size of files leaves no room: that one isn't tried, as the system would end the program by a
/// signal. This project's rule.
#[derive(Drop)]
pub struct Output<'a> {
    rt: &'a HostRuntime,
    sink: StdSink,
    faults: u64,
}

impl<'a> Model for Output<'a> {
    ghost use Rattle.std.specs.Prelude.{ℕ};

    ghost Value = { ℕ };

    ghost view = { λ s. s.faults };
}

impl<'a> Output<'a> {
    /// Standard output, with no fault so far.
    pub fn new(rt: &'a HostRuntime) -> Output<'a>
        ensures { result ≡ 0 }
    {
        Output {
            rt,
            sink: StdSink::new(rt.stdout()),
            faults: 0,
        }
    }

    /// Writes once, if there is room for a byte, and counts nothing.
    fn try_write(&mut self, piece: &[u8]) -> Result<usize, Failed>
        ensures at_most { IfOk result (λ count. count ≤ length piece.now) }
        ensures at_least { IfOk result (λ count. 0 < length piece.now → 0 < count) }
        ensures uncounted { self.new ≡ self.old }
    {
        if !piece.is_empty() && room_left(self.rt) == Some(0) {
            return Err(Failed);
        }
        self.sink.write(piece)
    }
}

impl<'a> Sink for Output<'a> {
    ghost written = { λ _. None };

    ghost faults = { λ s. s };

    /// A write fails where standard output fails, and where there is no room for a piece that isn't empty.
    fn write(&mut self, piece: &[u8]) -> Result<usize, Failed> {
        match self.try_write(piece) {
            Ok(count) => Ok(count),
            Err(failed) => {
                self.faults = self.faults.saturating_add(1);
                Err(failed)
            }
        }
    }
}
