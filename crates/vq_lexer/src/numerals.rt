//! Numerals.
ghost use Rattle.std.specs.Prelude.{◌≡◌, ◌≤◌, ◌<◌, ◌+◌, ◌*◌, ◌^◌, ◌&&◌, if◌then◌else◌, true, length, nat_lt};
ghost use Rattle.std.specs.Prelude.{IfOk, None, Some};
ghost use Rattle.std.specs.List.{list_all};
ghost use Rattle.std.specs.Char.{digit_value};
ghost use Rattle.std.specs.Option.{option_and_then};
ghost use Rattle.vq_model.specs.Text.{numeral, numeral_in};
ghost use Rattle.std.specs.Str.Parse.{digits_value};
ghost use Rattle.vq_model.specs.Meaning.{small_numeral, is_hex, hex_bytes};

use std::alloc::{AllocError, Global};

/// The value of a digit, at least 36 for a byte that is none.
pub fn digit(byte: u8) -> u32
    ensures { result ≡ digit_value byte }
{
    match byte {
        b'0'..=b'9' => u32::from(byte - b'0'),
        b'A'..=b'Z' => u32::from(byte - b'A') + 10,
        b'a'..=b'z' => u32::from(byte - b'a') + 10,
        _ => 36,
    }
}

/// The number that digits stand for, of which there are so few that it is below 2^64.
fn few_digits(base: u32, digits: &[u8]) -> Option<u64>
    requires base { 1 ≤ base }
    requires few { base ^ length digits.now ≤ 2 ^ 64 }
    ensures { result ≡ if list_all (λ b. nat_lt (digit_value b) base) digits.now
        then Some (digits_value base digits.now) else None }
{
    let mut number: u64 = 0;
    for byte in digits {
        let value = digit(*byte);
        if value >= base {
            return None;
        }
        number = number * u64::from(base) + u64::from(value);
    }
    Some(number)
}

/// A number with one decimal digit more, if it is below 2^64.
fn one_more(number: u64, byte: u8) -> Option<u64>
    ensures { result ≡ if nat_lt (digit_value byte) 10 && nat_lt (number * 10 + digit_value byte) (2 ^ 64)
        then Some (number * 10 + digit_value byte) else None }
{
    let value = digit(byte);
    if value >= 10 {
        return None;
    }
    let Some(product) = number.checked_mul(10) else {
        return None;
    };
    product.checked_add(u64::from(value))
}

/// The number of a decimal numeral of twenty digits, the only one that may be too large.
fn twenty_digits(word: &[u8]) -> Option<u64>
    requires { length word.now ≡ 20 }
    ensures { result ≡ numeral_in 10 20 word.now }
{
    match few_digits(10, &word[..19]) {
        Some(number) => one_more(number, word[19]),
        None => None,
    }
}

/// The number of a decimal numeral.
fn decimal(word: &[u8]) -> Option<u64>
    ensures { result ≡ numeral_in 10 20 word.now }
{
    match word.len() {
        1..=19 => few_digits(10, word),
        20 => twenty_digits(word),
        _ => None,
    }
}

/// The number of hexadecimal digits.
fn hexadecimal(digits: &[u8]) -> Option<u64>
    ensures { result ≡ numeral_in 16 16 digits.now }
{
    match digits.len() {
        1..=16 => few_digits(16, digits),
        _ => None,
    }
}

/// The number that a numeral stands for, in decimal or after `0x`.
pub fn numeral(word: &[u8]) -> Option<u64>
    ensures { result ≡ numeral word.now }
{
    match word {
        [b'0', b'x', digits @ ..] => hexadecimal(digits),
        _ => decimal(word),
    }
}

/// A numeral of 32 bits.
pub fn small_numeral(word: &[u8]) -> Option<u32>
    ensures { result ≡ small_numeral word.now }
{
    u32::try_from(numeral(word)?).ok()
}

/// Whether a byte is a hexadecimal digit, of either case.
fn is_hex_digit(byte: u8) -> bool
    ensures { result ≡ nat_lt (digit_value byte) 16 }
{
    byte.is_ascii_hexdigit()
}

/// The byte that two hexadecimal digits stand for. A letter's last four bits count from 1, and its
/// two first bits are 01.
#[tactic(auto, using(crate::proofs::DigitsRead::pair_values))]
fn hex_byte(high: u8, low: u8) -> u8
    requires high { digit_value high < 16 }
    requires low { digit_value low < 16 }
    ensures { result ≡ 16 * digit_value high + digit_value low }
{
    // Both digits are in one word, as in memory, so that a loop turns many pairs at once.
    let pair = u16::from(high) + 256 * u16::from(low);
    let values = (pair & 0x0f0f) + 9 * (pair / 64 & 0x0303);
    (16 * (values % 256) + values / 256) as u8
}

/// Whether each byte of a word is a hexadecimal digit, of either case.
fn has_hex_digits(word: &[u8]) -> bool
    ensures { result ≡ list_all (λ b. nat_lt (digit_value b) 16) word.now }
{
    // No early end and no jump, so that many bytes are tested at once.
    let mut hex = true;
    for byte in word {
        hex &= is_hex_digit(*byte);
    }
    hex
}

/// Whether a word is an even number of hexadecimal digits.
pub fn is_hex(word: &[u8]) -> bool
    ensures { result ≡ is_hex word.now }
{
    word.len() % 2 == 0 && has_hex_digits(word)
}

/// The bytes that hexadecimal digits stand for, two digits a byte.
pub fn hex_bytes(alloc: Global, digits: &[u8]) -> Result<Vec<u8>, AllocError>
    requires { is_hex digits.now ≡ true }
    ensures { IfOk result (λ bytes. bytes.items ≡ hex_bytes digits.now) }
{
    // Room for all bytes at first, so that many are written at once.
    let mut bytes = vec![in alloc; 0; digits.len() / 2]?;
    for place in 0..bytes.len() {
        bytes[place] = hex_byte(digits[2 * place], digits[2 * place + 1]);
    }
    Ok(bytes)
}
