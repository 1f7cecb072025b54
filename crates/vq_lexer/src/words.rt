//! The words of a line.
ghost use Rattle.std.specs.Prelude.{◌≡◌, ◌≤◌, ◌++◌, ◌&&◌, OnOk, IfOk, IfSome, ◌+◌, drop, length, nat_le, take};
ghost use Rattle.std.specs.List.{list_all};
ghost use Rattle.vq_model.specs.Text.{words_in, words_of, is_blank, is_plain};
ghost use Rattle.std.specs.Simd.Lanes.{chunk};
ghost use Rattle.vq_lexer.specs.Words.{AreBlanks, some_word, texts};

use std::alloc::AllocError;
use std::simd::prelude::*;

fn is_blank(byte: u8) -> bool
    ensures { result ≡ is_blank byte }
{
    byte == b' ' || byte == b'\t'
}

fn is_plain(byte: u8) -> bool
    ensures { result ≡ is_plain byte }
{
    (32 <= byte && byte <= 126) || byte == b'\t'
}

/// Whether a byte is one of most that words hold: plain, and after blanks and the sign of a comment in ASCII.
fn is_common(byte: u8) -> bool
    ensures { result ≡ (nat_le 36 byte && nat_le byte 126) }
{
    36 <= byte && byte <= 126
}

/// Adds a word, if it has a byte.
fn push_word<'a>(word: &'a [u8], words: &mut Vec<&'a [u8]>) -> Result<(), AllocError>
    ensures { OnOk result (texts words.new.items ≡ texts words.old.items ++ some_word word.now) }
{
    if !word.is_empty() {
        words.push(word)?;
    }
    Ok(())
}

/// The first bytes of a part.
fn front(part: &[u8], count: usize) -> &[u8]
    requires { count ≤ length part.now }
    ensures { result.now ≡ take count part.now }
{
    &part[..count]
}

/// A part without its first bytes.
fn behind(part: &[u8], count: usize) -> &[u8]
    requires { count ≤ length part.now }
    ensures { result.now ≡ drop count part.now }
{
    &part[count..]
}

/// The blanks of 8 bytes of a part, a bit each, where all others are common.
#[inline(always)]
fn blanks_of_8(part: &[u8], from: usize) -> Option<u64>
    requires { from + 8 ≤ length part.now }
    ensures { IfSome result (AreBlanks (chunk from 8 part.now)) }
{
    let bytes = u8x8::from_slice(&part[from..]);
    let blanks = bytes.simd_eq(u8x8::splat(b' ')).to_bitmask();
    let low = bytes.simd_lt(u8x8::splat(36)).to_bitmask();
    let plain = bytes.simd_lt(u8x8::splat(127)).to_bitmask();
    if low == blanks && plain == 0xff {
        Some(blanks)
    } else {
        None
    }
}

/// The blanks of 16 bytes of a part, a bit each, where all others are common.
#[inline(always)]
fn blanks_of_16(part: &[u8], from: usize) -> Option<u64>
    requires { from + 16 ≤ length part.now }
    ensures { IfSome result (AreBlanks (chunk from 16 part.now)) }
{
    let bytes = u8x16::from_slice(&part[from..]);
    let blanks = bytes.simd_eq(u8x16::splat(b' ')).to_bitmask();
    let low = bytes.simd_lt(u8x16::splat(36)).to_bitmask();
    let plain = bytes.simd_lt(u8x16::splat(127)).to_bitmask();
    if low == blanks && plain == 0xffff {
        Some(blanks)
    } else {
        None
    }
}

/// The blanks of a part of at most 32 bytes, a bit each, where all others are common. Of a part of less than 8 bytes
/// it says nothing.
#[inline(always)]
fn blanks_of(part: &[u8]) -> Option<u64>
    ensures { IfSome result (λ blanks. AreBlanks part.now blanks × (length part.now ≤ 32)) }
{
    // The last bytes may be some of the first ones too.
    let length = part.len();
    if 16 <= length && length <= 32 {
        let first = blanks_of_16(part, 0)?;
        let last = blanks_of_16(part, length - 16)?;
        return Some(first + 65_536 * (last >> (32 - length)));
    }
    if 8 <= length && length < 16 {
        let first = blanks_of_8(part, 0)?;
        let last = blanks_of_8(part, length - 8)?;
        return Some(first + 256 * (last >> (16 - length)));
    }
    None
}

/// Adds the words of a part, whose blanks these are.
fn cut_at_blanks<'a>(
    part: &'a [u8],
    blanks: u64,
    words: &mut Vec<&'a [u8]>,
) -> Result<(), AllocError>
    requires blanks { AreBlanks part.now blanks }
    requires short { length part.now ≤ 32 }
    ensures { OnOk result (texts words.new.items ≡ texts words.old.items ++ words_in part.now) }
{
    // What is left of the part, and its blanks.
    let mut rest = part;
    let mut left = blanks;
    while left != 0 {
        let length = left.trailing_zeros() as usize;
        push_word(front(rest, length), words)?;
        rest = behind(rest, length + 1);
        left >>= length + 1;
    }
    push_word(rest, words)
}

/// Puts the words of a line in place of those of the line before. It says whether all their bytes may stand
/// outside a comment.
pub fn find_words<'a>(line: &'a [u8], words: &mut Vec<&'a [u8]>) -> Result<bool, AllocError>
    ensures words { OnOk result (texts words.new.items ≡ words_of line.now) }
    ensures plain { IfOk result (λ plain. plain ≡ list_all (list_all is_plain) (words_of line.now)) }
{
    words.clear();
    // Most lines are short, and have no other bytes than these.
    if let Some(blanks) = blanks_of(line) {
        cut_at_blanks(line, blanks, words)?;
        return Ok(true);
    }
    let mut plain = true;
    // What is left of the line. So many bytes of it are one word so far.
    let mut part = line;
    let mut length = 0;
    while length < part.len() {
        let byte = part[length];
        // One test for most bytes, since this loop is most of what cutting a text takes.
        if is_common(byte) {
            length += 1;
        } else if byte == b'#' {
            part = front(part, length);
        } else if is_blank(byte) {
            push_word(front(part, length), words)?;
            part = behind(part, length + 1);
            length = 0;
        } else {
            plain &= is_plain(byte);
            length += 1;
        }
    }
    push_word(part, words)?;
    Ok(plain)
}
