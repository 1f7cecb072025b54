//! The lines of a text.
ghost use Rattle.std.specs.Prelude.{◌≡◌, [], ◌∷◌, MatchOption, IfSome, All, false, ◌<◌, ◌≤◌, length, map};
ghost use Rattle.std.specs.Simd.Lanes.{chunk, mask_l};
ghost use Rattle.std.specs.List.{position_or_len};
ghost use Rattle.std.specs.Str.Lines.{strip_carriage_return};
ghost use Rattle.vq_model.specs.Text.{lines_of, is_line_feed};

use memchr::memchr;
use std::simd::prelude::*;

/// A line without the one carriage return that belongs to its end.
fn without_return(line: &[u8]) -> &[u8]
    ensures { result.now ≡ strip_carriage_return line.now }
{
    match line {
        [front @ .., b'\r'] => front,
        _ => line,
    }
}

/// A bit for each of the first 32 bytes of a text, which is set where the byte is a line feed.
#[inline(always)]
fn line_feeds(text: &[u8]) -> u64
    requires { 32 ≤ length text.now }
    ensures { result ≡ mask_l (map is_line_feed (chunk 0 32 text.now)) }
{
    u8x32::from_slice(text)
        .simd_eq(u8x32::splat(b'\n'))
        .to_bitmask()
}

/// Where the first line ends, if it does within the first 32 bytes of a text of as many.
#[inline(always)]
fn near_end(text: &[u8]) -> Option<usize>
    ensures { IfSome result (λ end. (end < length text.now) × (end ≡ position_or_len is_line_feed text.now)) }
{
    if text.len() < 32 {
        return None;
    }
    let feeds = line_feeds(text);
    if feeds == 0 {
        return None;
    }
    Some(feeds.trailing_zeros() as usize)
}

/// Where the first line ends: at its line feed, or at the text's end.
fn line_end(text: &[u8]) -> usize
    ensures place { result ≡ position_or_len is_line_feed text.now }
    ensures within { result ≤ length text.now }
    ensures none { length text.now ≤ result → All (λ b. is_line_feed b ≡ false) text.now }
{
    // Most lines are short.
    if let Some(end) = near_end(text) {
        return end;
    }
    memchr(b'\n', text).unwrap_or(text.len())
}

/// The first line of a text, and what follows it.
pub fn next_line(text: &[u8]) -> Option<(&[u8], &[u8])>
    ensures { MatchOption result (lines_of text.now ≡ [])
        (λ x. (lines_of text.now ≡ x.0.now ∷ lines_of x.1.now) × (length x.1.now < length text.now)) }
{
    if text.is_empty() {
        return None;
    }
    let end = line_end(text);
    if end < text.len() {
        Some((without_return(&text[..end]), &text[end + 1..]))
    } else {
        Some((without_return(text), &text[text.len()..]))
    }
}
