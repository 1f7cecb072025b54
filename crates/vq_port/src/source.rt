ghost use Rattle.std.specs.Prelude.{◌≡◌, ℕ, ◌<◌, ◌≤◌, List, length, take, IfOk, OnErr};
ghost use Rattle.std.specs.declared.option.Option.{Option};
ghost use Rattle.vq_port.specs.Faults.{Rose};
ghost use Rattle.vq_port.specs.Reading.{Takes, IsAtEnd};

use crate::Failed;

/// Where bytes come from. This project's rule.
pub trait Source {
    /// The bytes that are left to read, where the source tells them.
    ghost left: { Self → Option (List ℕ) };

    /// How often the source has failed, at most 2^64 - 1; the count never falls.
    ghost faults: { Self → ℕ };

    /// Moves bytes into the front of `piece` and gives their number, at most the length of `piece`.
    /// It is 0 for a piece that isn't empty only where nothing is left. `Failed` comes only where the
    /// source counted a fault in this call; what it tells of the bytes left then stays as it was.
    fn read(&mut self, piece: &mut [u8]) -> Result<usize, Failed>
        ensures at_most { IfOk result (λ count. count ≤ length piece.old) }
        ensures takes { IfOk result (λ count. Takes (take count piece.new) (left self.old) (left self.new)) }
        ensures end { IfOk result (λ count. count ≡ 0 → 0 < length piece.old → IsAtEnd (left self.new)) }

        ensures counted { faults self.old ≤ faults self.new }
        ensures failed { OnErr result (Rose (faults self.old) (faults self.new)) }
        ensures stays { OnErr result (left self.new ≡ left self.old) };
}
