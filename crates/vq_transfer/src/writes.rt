//! Writes into the bytes of one buffer. All other bytes stay.
ghost use Rattle.std.specs.Prelude.{◌≡◌, ◌<◌, ◌≤◌, ◌+◌, ◌*◌, ◌%◌, ℕ, length, min, max};
ghost use Rattle.std.specs.List.{slice_range};
ghost use Rattle.vq_model.specs.Memory.{with_bytes, word_bytes};

/// Writes a word again and again, its least significant byte first.
fn write_word(part: &mut [u8], word: u32)
    requires { length part.old % 4 ≡ 0 }
    ensures { part.new ≡ word_bytes word (length part.old) }
{
    let [first, second, third, fourth] = word.to_le_bytes();
    for place in 0..part.len() / 4 {
        part[4 * place] = first;
        part[4 * place + 1] = second;
        part[4 * place + 2] = third;
        part[4 * place + 3] = fourth;
    }
}

/// Writes a word again and again into `size` bytes from `offset` on.
pub(crate) fn fill(bytes: &mut [u8], offset: usize, size: usize, word: u32)
    requires within { offset + size ≤ length bytes.old }
    requires words { size % 4 ≡ 0 }
    ensures { bytes.new ≡ with_bytes bytes.old offset (word_bytes word size) }
{
    write_word(&mut bytes[offset..offset + size], word);
}

/// Writes bytes from `offset` on.
pub(crate) fn update(bytes: &mut [u8], offset: usize, new: &[u8])
    requires { offset + length new.now ≤ length bytes.old }
    ensures { bytes.new ≡ with_bytes bytes.old offset new.now }
{
    bytes[offset..offset + new.len()].copy_from_slice(new);
}

/// Copies `size` bytes of another buffer.
pub(crate) fn copy_from(target: &mut [u8], to: usize, source: &[u8], from: usize, size: usize)
    requires written { to + size ≤ length target.old }
    requires read { from + size ≤ length source.now }
    ensures { target.new ≡ with_bytes target.old to (slice_range source.now from (from + size)) }
{
    update(target, to, &source[from..from + size]);
}

/// Copies `size` bytes to another place of the same buffer, which has no byte in common with
/// theirs.
pub(crate) fn copy_inside(bytes: &mut [u8], from: usize, to: usize, size: usize)
    requires written { to + size ≤ length bytes.old }
    requires read { from + size ≤ length bytes.old }
    requires apart { min from to + size ≤ max from to }
    ensures { bytes.new ≡ with_bytes bytes.old to (slice_range bytes.old from (from + size)) }
{
    if from < to {
        let (front, back) = bytes.split_at_mut(to);
        back[..size].copy_from_slice(&front[from..from + size]);
    } else {
        let (front, back) = bytes.split_at_mut(from);
        front[to..to + size].copy_from_slice(&back[..size]);
    }
}
