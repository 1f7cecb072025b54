ghost use Rattle.std.specs.Prelude.{ℕ, ◌<◌, ◌≤◌, List, length, take, IfOk, OnErr};
ghost use Rattle.std.specs.declared.option.Option.{Option};
ghost use Rattle.vq_port.specs.Faults.{Rose};
ghost use Rattle.vq_port.specs.Writing.{Appends, Stays, StillTells};

use crate::Failed;

/// Where bytes go. This project's rule.
///
/// What is said of the bytes that were written holds where the sink tells them at the end of the
/// call; it then told them at the start of the call too.
pub trait Sink {
    /// The bytes that were written so far, where the sink tells them.
    ghost written: { Self → Option (List ℕ) };

    /// How many more bytes the sink is sure to tell. It is sure of none unless it says so.
    ghost room: { Self → ℕ } = { λ _. 0 };

    /// How often the sink has failed, at most 2^64 - 1; the count never falls.
    ghost faults: { Self → ℕ };

    /// Takes bytes from the front of `piece` and gives their number, at most the length of `piece`,
    /// and at least 1 for a piece that isn't empty. `Failed` comes only where the sink counted a
    /// fault in this call; what it tells of its bytes then stays as it was.
    fn write(&mut self, piece: &[u8]) -> Result<usize, Failed>
        ensures at_most { IfOk result (λ count. count ≤ length piece.now) }
        ensures at_least { IfOk result (λ count. 0 < length piece.now → 0 < count) }
        ensures appends { IfOk result (λ count. Appends (take count piece.now) (written self.old) (written self.new)) }
        ensures tells { IfOk result (λ count. StillTells count
            (written self.old) (written self.new) (room self.old) (room self.new)) }

        ensures counted { faults self.old ≤ faults self.new }
        ensures failed { OnErr result (Rose (faults self.old) (faults self.new)) }
        ensures stays { OnErr result (Stays (written self.old) (written self.new)) };
}
