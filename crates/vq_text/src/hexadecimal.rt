//! Bytes as lines of hexadecimal digits.
ghost use Rattle.std.specs.Prelude.{◌≡◌, ◌≤◌, ◌+◌, ◌*◌, ◌<◌, ◌^◌, ◌++◌, ℕ, List, length};
ghost use Rattle.std.specs.List.{flat_map};
ghost use Rattle.std.specs.Vec.{vec_capacity, vec_len};
ghost use Rattle.vq_model.specs.OutputText.{hex_byte, hex_lines, line_feed};

use crate::room::put_bytes;
use vq_model::hexadecimal::hex_digit;

/// The bytes of a line.
const ROW: usize = 16;

/// Writes two digits for each byte.
#[inline(always)]
fn write_digits(digits: &mut [u8], bytes: &[u8])
    requires { length digits.old ≡ 2 * length bytes.now }
    ensures { digits.new ≡ flat_map hex_byte bytes.now }
{
    for (place, byte) in bytes.iter().enumerate() {
        digits[2 * place] = hex_digit(*byte / 16);
        digits[2 * place + 1] = hex_digit(*byte % 16);
    }
}

/// Adds a whole line to a text that has room for it. Its length is a constant, so that it is made
/// without a loop.
fn put_row(out: &mut Vec<u8>, bytes: &[u8])
    requires whole { length bytes.now ≡ 16 }
    requires room { vec_len out.old + 33 ≤ vec_capacity out.old }
    ensures items { out.new.items ≡ out.old.items ++ (flat_map hex_byte bytes.now ++ line_feed) }
    ensures capacity { vec_capacity out.old ≤ vec_capacity out.new }
{
    let mut line = [b'\n'; 2 * ROW + 1];
    write_digits(&mut line[..2 * ROW], &bytes[..ROW]);
    put_bytes(out, &line);
}

/// Adds a line of at most sixteen bytes to a text that has room for it.
fn put_line(out: &mut Vec<u8>, bytes: &[u8])
    requires short { length bytes.now ≤ 16 }
    requires room { vec_len out.old + 2 * length bytes.now + 1 ≤ vec_capacity out.old }
    ensures items { out.new.items ≡ out.old.items ++ (flat_map hex_byte bytes.now ++ line_feed) }
    ensures capacity { vec_capacity out.old ≤ vec_capacity out.new }
{
    let mut line = [b'\n'; 2 * ROW + 1];
    let digits = 2 * bytes.len();
    write_digits(&mut line[..digits], bytes);
    put_bytes(out, &line[..digits + 1]);
}

/// Adds bytes, sixteen to a line, to a text that has room for them.
pub(crate) fn put_lines(out: &mut Vec<u8>, bytes: &[u8])
    requires { vec_len out.old + length (hex_lines bytes.now) ≤ vec_capacity out.old }
    ensures items { out.new.items ≡ out.old.items ++ hex_lines bytes.now }
    ensures capacity { vec_capacity out.old ≤ vec_capacity out.new }
{
    let rows = bytes.len() / ROW;
    for row in 0..rows {
        let start = ROW * row;
        put_row(out, &bytes[start..start + ROW]);
    }
    let whole = ROW * rows;
    if whole < bytes.len() {
        put_line(out, &bytes[whole..]);
    }
}

/// How many bytes the lines of so many bytes have.
pub(crate) fn lines_room(count: u32) -> usize
    ensures exact { (bytes : List ℕ) → length bytes ≡ count → result ≡ length (hex_lines bytes) }
    ensures short { result < 2 ^ 34 }
{
    let count = count as usize;
    2 * count + count.div_ceil(ROW)
}
