//! The text of buffers.
//!
//! Source: this project's own, where an item names no other.
ghost use Rattle.std.specs.Prelude.{◌≡◌, ◌≤◌, ◌+◌, ◌++◌, ◌-◌, ◌^◌, ℕ, List, length, map, min};
ghost use Rattle.std.specs.Fmt.{decimal};
ghost use Rattle.std.specs.Vec.{vec_capacity, vec_len};
ghost use Rattle.vq_model.specs.FittingCommands.{HasSizes};
ghost use Rattle.vq_model.specs.Memory.{Memory};
ghost use Rattle.vq_model.specs.OutputText.{buffer_text, buffers_text};

use crate::hexadecimal::{lines_room, put_lines};
use crate::room::{put_bytes, put_number};
use itoa::Buffer as Numeral;
use vq_model::script::Buffer;

/// How many digits a number has.
fn number_room(number: u32) -> usize
    ensures exact { result ≡ length (decimal number) }
    ensures short { result ≤ 10 }
{
    Numeral::new().format(number).len()
}

/// How many bytes the text of a buffer has, whatever the bytes in it are.
pub fn buffer_room(buffer: &Buffer) -> usize
    ensures { (bytes : List ℕ) → length bytes ≡ buffer.now.size →
        result ≡ length (buffer_text buffer.now bytes) }
{
    9 + buffer.name.as_slice().len() + number_room(buffer.size) + lines_room(buffer.size)
}

/// Adds the text of a buffer to a text that has room for it: a line with its name and its size, and its
/// bytes in hexadecimal digits, sixteen bytes to a line. It takes no memory.
pub fn put_buffer(out: &mut Vec<u8>, buffer: &Buffer, bytes: &[u8])
    requires { vec_len out.old + length (buffer_text buffer.now bytes.now) ≤ vec_capacity out.old }
    ensures items { out.new.items ≡ out.old.items ++ buffer_text buffer.now bytes.now }
    ensures capacity { vec_capacity out.old ≤ vec_capacity out.new }
{
    put_bytes(out, b"buffer ");
    put_bytes(out, buffer.name.as_slice());
    put_bytes(out, b" ");
    put_number(out, u64::from(buffer.size));
    put_bytes(out, b"\n");
    put_lines(out, bytes);
}

/// How many bytes the text of buffers of these declarations has, whatever the bytes in them are: that of
/// each, and the line `end`. It is the greatest `usize` where there are more.
pub fn buffers_room(buffers: &[Buffer]) -> usize
    ensures { (m : Memory) → HasSizes (map (λ b. b.size) buffers.now) m →
        result ≡ min (length (buffers_text buffers.now m)) (2 ^ 64 - 1) }
{
    let mut room = 4usize;
    for buffer in buffers {
        room = room.saturating_add(buffer_room(buffer));
    }
    room
}
