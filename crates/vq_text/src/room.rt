//! Bytes and decimal numerals, added to a text that has room for them. Nothing here takes memory.
ghost use Rattle.std.specs.Prelude.{◌≡◌, ◌<◌, ◌≤◌, ◌+◌, ◌++◌, ◌∷◌, [], length};
ghost use Rattle.std.specs.Fmt.{decimal};
ghost use Rattle.std.specs.Vec.{vec_capacity, vec_len};

use itoa::Buffer;

/// Adds bytes to a text that has room for them.
pub fn put_bytes(out: &mut Vec<u8>, bytes: &[u8])
    requires { vec_len out.old + length bytes.now ≤ vec_capacity out.old }
    ensures items { out.new.items ≡ out.old.items ++ bytes.now }
    ensures len { vec_len out.new ≡ vec_len out.old + length bytes.now }
    ensures capacity { vec_capacity out.old ≤ vec_capacity out.new }
{
    match out.extend_from_slice(bytes) {
        Ok(()) => (),
        // It fails only where room is missing.
        Err(_) => unreachable!(),
    }
}

/// Adds a digit to a text that has room for it.
#[inline(always)]
fn put_digit(out: &mut Vec<u8>, digit: u64)
    requires digit { digit < 10 }
    requires room { vec_len out.old + 1 ≤ vec_capacity out.old }
    ensures items { out.new.items ≡ out.old.items ++ (48 + digit) ∷ [] }
    ensures len { vec_len out.new ≡ vec_len out.old + 1 }
    ensures capacity { vec_capacity out.old ≤ vec_capacity out.new }
{
    out.push_reserved(b'0' + digit as u8);
}

/// Adds a number below 100 to a text that has room for it.
#[inline(always)]
fn put_two(out: &mut Vec<u8>, number: u64)
    requires few { number < 100 }
    requires room { vec_len out.old + length (decimal number) ≤ vec_capacity out.old }
    ensures items { out.new.items ≡ out.old.items ++ decimal number }
    ensures len { vec_len out.new ≡ vec_len out.old + length (decimal number) }
    ensures capacity { vec_capacity out.old ≤ vec_capacity out.new }
{
    if number < 10 {
        return put_digit(out, number);
    }
    put_digit(out, number / 10);
    put_digit(out, number % 10);
}

/// Adds a number below 1,000 to a text that has room for it.
#[inline(always)]
fn put_three(out: &mut Vec<u8>, number: u64)
    requires few { number < 1000 }
    requires room { vec_len out.old + length (decimal number) ≤ vec_capacity out.old }
    ensures items { out.new.items ≡ out.old.items ++ decimal number }
    ensures len { vec_len out.new ≡ vec_len out.old + length (decimal number) }
    ensures capacity { vec_capacity out.old ≤ vec_capacity out.new }
{
    if number < 100 {
        return put_two(out, number);
    }
    put_two(out, number / 10);
    put_digit(out, number % 10);
}

/// Adds a decimal numeral to a text that has room for it. Most are short: their digits go where they belong.
pub fn put_number(out: &mut Vec<u8>, number: u64)
    requires { vec_len out.old + length (decimal number) ≤ vec_capacity out.old }
    ensures items { out.new.items ≡ out.old.items ++ decimal number }
    ensures len { vec_len out.new ≡ vec_len out.old + length (decimal number) }
    ensures capacity { vec_capacity out.old ≤ vec_capacity out.new }
{
    if number < 1000 {
        return put_three(out, number);
    }
    let mut numeral = Buffer::new();
    put_bytes(out, numeral.format(number).as_bytes());
}
