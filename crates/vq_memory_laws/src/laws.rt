//! What commands do to bytes, as laws. The functions do nothing: their contracts are the laws.
ghost use Rattle.std.specs.Prelude.{◌≡◌, ◌<◌, ◌≤◌, ◌+◌, ℕ, List, ◌⊎◌};
ghost use Rattle.std.specs.List.{slice_index_or};
ghost use Rattle.vq_model.specs.declared.script.Command.{Command};
ghost use Rattle.vq_model.specs.Memory.{Memory, effect, buffer};
ghost use Rattle.vq_model.specs.FittingCommands.{HasSizes, written_byte};
ghost use Rattle.vq_model.specs.FittingCommands.{Fits};
ghost use Rattle.vq_model.specs.Ranges.{written_range};

/// A command that fits leaves the length of each buffer. In the range that it writes stand its
/// bytes, in order, and every other byte of every buffer stays.
pub fn commands_write_bytes()
    ensures sizes { (sizes : List ℕ) → (c : Command) → (m : Memory) → HasSizes sizes m →
        Fits sizes c → HasSizes sizes (effect c m) }
    ensures inside { (sizes : List ℕ) → (c : Command) → (m : Memory) → HasSizes sizes m →
        Fits sizes c → (k : ℕ) → k < (written_range sizes c).size →
        slice_index_or (buffer (effect c m) (written_range sizes c).buffer)
        ((written_range sizes c).start + k) 0 ≡ written_byte c m k }
    ensures beside { (sizes : List ℕ) → (c : Command) → (m : Memory) → HasSizes sizes m →
        Fits sizes c → (k : ℕ) →
        (k < (written_range sizes c).start)
        ⊎ ((written_range sizes c).start + (written_range sizes c).size ≤ k) →
        slice_index_or (buffer (effect c m) (written_range sizes c).buffer) k 0
        ≡ slice_index_or (buffer m (written_range sizes c).buffer) k 0 }
    ensures elsewhere { (sizes : List ℕ) → (c : Command) → (m : Memory) → HasSizes sizes m →
        Fits sizes c → (b : ℕ) →
        ¬ (b ≡ (written_range sizes c).buffer) → buffer (effect c m) b ≡ buffer m b }
{}
