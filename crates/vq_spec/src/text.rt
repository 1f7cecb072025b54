//! The text of buffers.
//!
//! Source: this project's own, where an item names no other.
ghost use Rattle.std.specs.Prelude.{◌≡◌, ◌≤◌, ◌+◌, ◌++◌, OnOk, IfOk, length};
ghost use Rattle.std.specs.Vec.{vec_capacity, vec_len};
ghost use Rattle.vq_model.specs.FittingCommands.{HasSizes};
ghost use Rattle.vq_model.specs.OutputText.{buffers_text};
ghost use Rattle.vq_model.specs.ValidScripts.{sizes_of};

use crate::plan::Plan;
use std::alloc::{AllocError, Global};
use vq_text::{buffers_room, put_buffer, put_bytes};
use vq_transfer::Buffers;

/// Adds the text of buffers to a text that has room for it. It takes no memory.
pub(crate) fn put_buffers(out: &mut Vec<u8>, plan: &Plan, buffers: &Buffers)
    requires sizes { HasSizes (sizes_of plan.now.script) buffers.now }
    requires room { vec_len out.old + length (buffers_text plan.now.script.buffers buffers.now)
        ≤ vec_capacity out.old }
    ensures { out.new.items ≡ out.old.items ++ buffers_text plan.now.script.buffers buffers.now }
{
    let declared = plan.script().buffers.as_slice();
    for b in 0..buffers.count() {
        put_buffer(out, &declared[b as usize], buffers.bytes(b));
    }
    put_bytes(out, b"end\n");
}

/// Adds the text of buffers: for each buffer a line with its name and its size, and its bytes in
/// hexadecimal digits, sixteen bytes to a line; the last line is `end`. The error is want of memory.
pub fn push_buffers(out: &mut Vec<u8>, plan: &Plan, buffers: &Buffers) -> Result<(), AllocError>
    requires { HasSizes (sizes_of plan.now.script) buffers.now }
    ensures { OnOk result
        (out.new.items ≡ out.old.items ++ buffers_text plan.now.script.buffers buffers.now) }
{
    out.reserve(buffers_room(plan.script().buffers.as_slice()))?;
    put_buffers(out, plan, buffers);
    Ok(())
}

/// The text of buffers, as `push_buffers` adds it. The error is want of memory.
pub fn buffers_text(alloc: Global, plan: &Plan, buffers: &Buffers) -> Result<Vec<u8>, AllocError>
    requires { HasSizes (sizes_of plan.now.script) buffers.now }
    ensures { IfOk result (λ text. text.items ≡ buffers_text plan.now.script.buffers buffers.now) }
{
    let mut out = Vec::new(alloc);
    push_buffers(&mut out, plan, buffers)?;
    Ok(out)
}
