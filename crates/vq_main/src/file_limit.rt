//! How far standard output is from the limit on the size of files.
//!
//! Where a program writes to a regular file at this limit or behind it, the system ends it by the signal SIGXFSZ, and a
//! signal can't be ignored here. So the limit, and where the next write goes, are read before it, in texts that Linux
//! makes below `/proc/self`. Where one of them can't be read, nothing is known, and nothing is refused.
ghost use Rattle.std.specs.Prelude.{◌≤◌, IfSome};
ghost use Rattle.vq_main.specs.Fields.{IsNumberBehind};

use std::fs::{self, File, Files};
use std::io::Read;

/// Of the flags of an open file, the one by which each write goes to the end of the file: `O_APPEND`.
const APPENDS: u64 = 0o2000;

/// How many bytes of a text are read at most: what is looked for stands in its first lines.
const START: usize = 1024;

/// How many more bytes standard output takes before the limit on the size of files stops it. `None` where it is no
/// regular file, as only these have a limit; where there is no limit; and where the system doesn't tell.
pub fn room_left(rt: &impl Files) -> Option<u64> {
    let file = fs::metadata(rt, "/proc/self/fd/1").ok()?;
    if !file.is_file() {
        return None;
    }
    let most = most_bytes(rt)?;
    let place = next_place(rt, file.len())?;
    Some(most.saturating_sub(place))
}

/// How many bytes a file may have. `None` where there is no limit.
fn most_bytes(rt: &impl Files) -> Option<u64> {
    let mut start = [0; START];
    let text = read_start(rt, "/proc/self/limits", &mut start)?;
    number_behind(text, "Max file size", 10)
}

/// Where the next write to standard output goes, in bytes from the start of the file, which is so long.
fn next_place(rt: &impl Files, length: u64) -> Option<u64> {
    let mut start = [0; START];
    let text = read_start(rt, "/proc/self/fdinfo/1", &mut start)?;
    if number_behind(text, "flags:", 8)? & APPENDS == 0 {
        number_behind(text, "pos:", 10)
    } else {
        Some(length)
    }
}

/// The start of a file, as much as one read gives.
fn read_start<'a>(rt: &impl Files, path: &str, start: &'a mut [u8]) -> Option<&'a str> {
    let count = File::open(rt, path).ok()?.read(start).ok()?;
    str::from_utf8(&start[..count]).ok()
}

/// The number in this base that is the first word behind the label. `None` where there is no label, and where the word
/// is no such number, as `unlimited`.
fn number_behind(text: &str, label: &str, base: u32) -> Option<u64>
    requires least { 2 ≤ base }
    requires most { base ≤ 36 }
    ensures { IfSome result (IsNumberBehind text.now label.now base) }
{
    let (_, behind) = text.split_once(label)?;
    let word = behind.split_whitespace().next()?;
    u64::from_str_radix(word, base).ok()
}
