//! An ending in words.
//!
//! Source: this project's own.
ghost use Rattle.std.specs.Prelude.{◌≡◌, IfOk};
ghost use Rattle.vq_face.specs.Explanations.{explanation, with_front, with_mend};

use crate::ending::Ending;
use std::alloc::{AllocError, Global};
use vq_messages::{
    line_refusal, mend_of_line, mend_of_order, mend_of_plan, mend_of_size, order_refusal,
    plan_refusal,
};

/// What is said where there was no memory.
pub const NO_MEMORY: &[u8] = b"no memory\n";

/// A refusal, and what mends it.
fn with_mend(refusal: Vec<u8>, mend: &str) -> Result<Vec<u8>, AllocError>
    ensures { IfOk result (λ text. text.items ≡ with_mend refusal.items mend.now) }
{
    let mut text = refusal;
    text.extend_from_slice(b"mend: ")?;
    text.extend_from_slice(mend.as_bytes())?;
    Ok(text)
}

/// An ending in words. The error is want of memory.
pub fn explained(alloc: Global, ending: Ending) -> Result<Vec<u8>, AllocError>
    ensures { IfOk result (λ text. text.items ≡ explanation ending) }
{
    match ending {
        Ending::Lawful => Vec::from_slice(alloc, b"lawful\n"),
        Ending::NoMemory => Vec::from_slice(alloc, NO_MEMORY),
        Ending::TooLong => with_mend(
            Vec::from_slice(alloc, b"error: too long\n")?,
            mend_of_size(),
        ),
        Ending::FaultyLine { line, kind } => {
            with_mend(line_refusal(alloc, line, kind)?, mend_of_line(kind))
        }
        Ending::NoPlan(fault) => with_mend(plan_refusal(alloc, fault)?, mend_of_plan(fault)),
        Ending::Unlawful(fault) => with_mend(order_refusal(alloc, fault)?, mend_of_order(fault)),
    }
}

/// Writes as many bytes of a text to the front of a room as go into it.
pub fn put(text: &[u8], room: &mut [u8])
    ensures { room.new ≡ with_front text.now room.old }
{
    let count = text.len().min(room.len());
    room[..count].copy_from_slice(&text[..count]);
}
