//! Numbers, written digit by digit into a room from a place on. Each call gives the place behind what it wrote.
//!
//! Source: this project's own.
ghost use Rattle.std.specs.Prelude.{◌≡◌, ◌<◌, ◌≤◌, ◌+◌, ◌++◌, ◌∷◌, [], length, take};
ghost use Rattle.std.specs.Fmt.{decimal};
ghost use Rattle.vq_replay.specs.Digits.{eight_digits, four_digits, two_digits};

/// The two digits of each number below 100.
static PAIRS: [u8; 200] =
    *b"00010203040506070809101112131415161718192021222324252627282930313233343536373839404142434445464748495051525354555657585960616263646566676869707172737475767778798081828384858687888990919293949596979899";

/// Writes one digit.
#[inline(always)]
fn put_digit(room: &mut [u8], at: usize, digit: u32) -> usize
    requires { (digit < 10) × (at + 1 ≤ length room.old) }
    ensures end { result ≡ at + 1 }
    ensures written { take result room.new ≡ take at room.old ++ (48 + digit) ∷ [] }
{
    room[at] = b'0' + digit as u8;
    at + 1
}

/// Writes two digits.
#[inline(always)]
fn put_pair(room: &mut [u8], at: usize, pair: u32) -> usize
    requires { (pair < 100) × (at + 2 ≤ length room.old) }
    ensures end { result ≡ at + 2 }
    ensures written { take result room.new ≡ take at room.old ++ two_digits pair }
{
    let from = pair as usize * 2;
    let (tens, ones) = (PAIRS[from], PAIRS[from + 1]);
    room[at] = tens;
    room[at + 1] = ones;
    at + 2
}

/// Writes four digits.
#[inline(always)]
fn put_four(room: &mut [u8], at: usize, four: u32) -> usize
    requires { (four < 10000) × (at + 4 ≤ length room.old) }
    ensures end { result ≡ at + 4 }
    ensures written { take result room.new ≡ take at room.old ++ four_digits four }
{
    let at = put_pair(room, at, four / 100);
    put_pair(room, at, four % 100)
}

/// Writes eight digits.
#[inline(always)]
fn put_eight(room: &mut [u8], at: usize, eight: u32) -> usize
    requires { (eight < 100000000) × (at + 8 ≤ length room.old) }
    ensures end { result ≡ at + 8 }
    ensures written { take result room.new ≡ take at room.old ++ eight_digits eight }
{
    let at = put_four(room, at, eight / 10_000);
    put_four(room, at, eight % 10_000)
}

/// Writes a number of one or two digits.
#[inline(always)]
fn put_first(room: &mut [u8], at: usize, number: u32) -> usize
    requires { (number < 100) × (at + 2 ≤ length room.old) }
    ensures within { result ≤ at + 2 }
    ensures written { take result room.new ≡ take at room.old ++ decimal number }
{
    if number < 10 {
        return put_digit(room, at, number);
    }
    put_pair(room, at, number)
}

/// Writes a number of four digits at most.
#[inline(always)]
fn put_short(room: &mut [u8], at: usize, number: u32) -> usize
    requires { (number < 10000) × (at + 4 ≤ length room.old) }
    ensures within { result ≤ at + 4 }
    ensures written { take result room.new ≡ take at room.old ++ decimal number }
{
    if number < 100 {
        return put_first(room, at, number);
    }
    let at = put_first(room, at, number / 100);
    put_pair(room, at, number % 100)
}

/// Writes a number of eight digits at most.
#[inline(always)]
fn put_middle(room: &mut [u8], at: usize, number: u32) -> usize
    requires { (number < 100000000) × (at + 8 ≤ length room.old) }
    ensures within { result ≤ at + 8 }
    ensures written { take result room.new ≡ take at room.old ++ decimal number }
{
    if number < 10_000 {
        return put_short(room, at, number);
    }
    let at = put_short(room, at, number / 10_000);
    put_four(room, at, number % 10_000)
}

/// Writes a number.
#[inline(always)]
pub(crate) fn put_count(room: &mut [u8], at: usize, number: u32) -> usize
    requires { at + 10 ≤ length room.old }
    ensures within { result ≤ at + 10 }
    ensures written { take result room.new ≡ take at room.old ++ decimal number }
{
    if number < 100_000_000 {
        return put_middle(room, at, number);
    }
    let at = put_first(room, at, number / 100_000_000);
    put_eight(room, at, number % 100_000_000)
}

/// Writes a number of sixteen digits at most.
fn put_long(room: &mut [u8], at: usize, number: u64) -> usize
    requires { (number < 10000000000000000) × (at + 16 ≤ length room.old) }
    ensures within { result ≤ at + 16 }
    ensures written { take result room.new ≡ take at room.old ++ decimal number }
{
    if number < 100_000_000 {
        return put_middle(room, at, number as u32);
    }
    let at = put_middle(room, at, (number / 100_000_000) as u32);
    put_eight(room, at, (number % 100_000_000) as u32)
}

/// Writes a number of 64 bits.
pub(crate) fn put_value(room: &mut [u8], at: usize, number: u64) -> usize
    requires { at + 24 ≤ length room.old }
    ensures within { result ≤ at + 24 }
    ensures written { take result room.new ≡ take at room.old ++ decimal number }
{
    if number < 100_000_000 {
        return put_middle(room, at, number as u32);
    }
    let at = put_long(room, at, number / 100_000_000);
    put_eight(room, at, (number % 100_000_000) as u32)
}
