//! What C calls.
//!
//! Source: this project's own.
ghost use Rattle.std.specs.Prelude.{◌≡◌};
ghost use Rattle.vq_face.specs.Explanations.{IsExplained};
ghost use Rattle.vq_face.specs.Verdicts.{IsVerdict};

use std::alloc::Global;
use vq_face::{Ending, NO_MEMORY, Verdict, ending_of, explained, put, verdict_of};

/// The version of this face, and the latest version of scripts that it reads.
#[repr(C)]
#[derive(Clone, Copy)]
pub struct Version {
    pub face: u32,
    pub script: u32,
}

/// The version.
#[unsafe(no_mangle)]
pub extern "C" fn vq_version() -> Version
    ensures { result ≡ record { face = 4; script = 2 } }
{
    Version { face: 4, script: 2 }
}

/// Whether the script that a text holds is lawful, and if not, its first fault. Any bytes may be passed, from any
/// thread. Want of memory is a code.
#[unsafe(no_mangle)]
pub extern "C" fn vq_check(alloc: Global, text: &[u8]) -> Verdict
    ensures { IsVerdict text.now result }
{
    verdict_of(ending_of(alloc, text))
}

/// The same, and in words: as many bytes of them as go into the room are written to its front, and `needed` is how
/// many there are.
#[unsafe(no_mangle)]
pub extern "C" fn vq_explain(
    alloc: Global,
    text: &[u8],
    room: &mut [u8],
    needed: &mut usize,
) -> Verdict
    ensures { IsExplained text.now room.old room.new needed.new result }
{
    let ending = ending_of(alloc, text);
    match explained(alloc, ending) {
        Ok(words) => {
            put(words.as_slice(), room);
            *needed = words.len();
            verdict_of(ending)
        }
        Err(_) => {
            put(NO_MEMORY, room);
            *needed = NO_MEMORY.len();
            verdict_of(Ending::NoMemory)
        }
    }
}
