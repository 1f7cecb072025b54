//! What a run has left in its buffers, read through what a handle holds.
//!
//! Source: this project's own.
ghost use Rattle.std.specs.Prelude.{◌≡◌, ◌≤◌, IfErr, IfOk, length};
ghost use Rattle.vq_c.specs.Bytes.{IsLeft, IsLeftOf, IsRead, IsUnread, IsUnreadIn, IsUnreadOf, IsUnleft};
ghost use Rattle.vq_shared_run.specs.Players.{IsLeftIn};

use crate::object::Object;
use std::alloc::Global;
use vq_core_run::Drive;
use vq_face::Reply;
use vq_shared_run::{Player, Shut};

/// A copy of the bytes that a run over one core has left in a buffer.
fn left_by(alloc: Global, drive: &Drive, buffer: u32) -> Result<Vec<u8>, Reply>
    ensures left { IfOk result (λ bytes. IsLeft drive.now buffer bytes.items) }
    ensures cause { IfErr result (IsUnreadIn drive.now buffer) }
{
    if !drive.is_finished() {
        return Err(Reply::Unfinished);
    }
    let buffers = drive.buffers();
    if buffer >= buffers.count() {
        return Err(Reply::NoBuffer);
    }
    match Vec::from_slice(alloc, buffers.bytes(buffer)) {
        Ok(bytes) => Ok(bytes),
        Err(_) => Err(Reply::NoMemory),
    }
}

/// A copy of the bytes that a run over a closed board has left in a buffer.
fn left_in(alloc: Global, player: &Player, buffer: u32) -> Result<Vec<u8>, Reply>
    ensures left { IfOk result (λ bytes. IsLeftIn player.now buffer bytes.items) }
    ensures cause { IfErr result (λ reply. IsUnleft player.now buffer reply) }
{
    let Some(bytes) = player.bytes(buffer) else {
        return Err(Reply::NoBuffer);
    };
    match Vec::from_slice(alloc, bytes) {
        Ok(bytes) => Ok(bytes),
        Err(_) => Err(Reply::NoMemory),
    }
}

/// The same, of a board that is closed for it, if it can be.
fn left_of(alloc: Global, player: &mut Player, buffer: u32) -> Result<Vec<u8>, Reply>
    ensures left { IfOk result (λ bytes. IsLeftOf player.old player.new buffer bytes.items) }
    ensures cause { IfErr result (λ reply. IsUnreadOf player.old player.new buffer reply) }
{
    match player.close() {
        Shut::Closed => left_in(alloc, player, buffer),
        Shut::Unfinished => Err(Reply::Unfinished),
        Shut::Shared => Err(Reply::Shared),
        Shut::NotHost => Err(Reply::NotHost),
    }
}

impl Object {
    /// A copy of the bytes that the run has left in a buffer, or why there is none. A board is closed for it.
    pub(crate) fn read(&mut self, alloc: Global, buffer: u32) -> Result<Vec<u8>, Reply>
        ensures left { IfOk result (λ bytes. IsRead self.old self.new buffer bytes.items) }
        ensures cause { IfErr result (λ reply. IsUnread self.old self.new buffer reply) }
    {
        match self {
            Object::Plan(_) => Err(Reply::WrongKind),
            Object::Run(drive) => left_by(alloc, drive, buffer),
            Object::Actor(player) => left_of(alloc, player, buffer),
        }
    }
}
