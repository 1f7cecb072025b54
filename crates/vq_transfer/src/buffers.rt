//! The bytes of all buffers.
//!
//! Source: this project's own, where an item names no other.
ghost use Rattle.std.specs.Prelude.{◌≡◌, ◌≢◌, ℕ, false, [], ◌+◌, ◌<◌, ◌≤◌, ◌^◌};
ghost use Rattle.std.specs.Prelude.{◌↔◌, IsTrue, IfOk, length, map};
ghost use Rattle.std.specs.List.{range_with_len, slice_index_or};
ghost use Rattle.vq_model.specs.Memory.{effect, zeros_of, buffer};
ghost use Rattle.vq_model.specs.FittingCommands.{Fits, IsWithin};
ghost use Rattle.vq_model.specs.Ranges.{share};

use crate::writes;
use std::alloc::{AllocError, Global};
use std::marker::Model;
use vq_model::list::Bytes;
use vq_model::ranges::Range;
use vq_model::script::{Command, FillSize};

/// The bytes of each buffer, in the order in which the buffers are declared.
#[derive(Drop)]
pub struct Buffers {
    bytes: Vec<Vec<u8>>,
}

impl Model for Buffers {
    ghost use Rattle.std.specs.Prelude.{length, ◌<◌, ◌^◌};
    ghost use Rattle.vq_model.specs.Memory.{Memory};
    ghost use Rattle.vq_transfer.specs.Stored.{bytes_of};

    ghost Value = { Memory };

    ghost view = { λ a. bytes_of a.bytes.items };

    ghost invariant = { λ a. length a.bytes.items < 2 ^ 32 };
}

/// So many zero bytes.
fn zero_bytes(alloc: Global, size: u32) -> Result<Vec<u8>, AllocError>
    ensures { IfOk result (λ v. v.items ≡ map (λ k. 0) (range_with_len 0 size)) }
{
    vec![in alloc; 0u8; size as usize]
}

impl Buffers {
    /// Buffers of these sizes in bytes, all bytes zero. The error is want of memory.
    ///
    /// Source: this project's rule, that buffers begin with zero bytes.
    pub fn new(alloc: Global, sizes: &[u32]) -> Result<Buffers, AllocError>
        requires { length sizes.now < 2 ^ 32 }
        ensures { IfOk result (λ buffers. buffers ≡ zeros_of sizes.now) }
    {
        let mut bytes = Vec::with_capacity(alloc, sizes.len())?;
        for size in sizes {
            bytes.push(zero_bytes(alloc, *size)?)?;
        }
        Ok(Buffers { bytes })
    }

    /// How many buffers there are.
    pub fn count(&self) -> u32
        ensures count { result ≡ length self.now }
        ensures small { length self.now < 2 ^ 32 }
    {
        self.bytes.len() as u32
    }

    /// The bytes of a buffer; buffers are numbered from 0.
    pub fn bytes(&self, buffer: u32) -> &[u8]
        requires { buffer < length self.now }
        ensures { result.now ≡ slice_index_or self.now buffer [] }
    {
        self.bytes[buffer as usize].as_slice()
    }

    /// How many bytes a buffer has; 0 where there is no such buffer.
    fn size(&self, buffer: u32) -> usize
        ensures { result ≡ slice_index_or (map length self.now) buffer 0 }
    {
        match self.bytes.get(buffer as usize) {
            Some(bytes) => bytes.len(),
            None => 0,
        }
    }

    /// Whether a range of bytes lies in its buffer.
    fn is_within(&self, range: Range) -> bool
        ensures { IsTrue result ↔ IsWithin (map length self.now) range }
    {
        let len = self.size(range.buffer);
        (range.buffer as usize) < self.bytes.len()
            && range.size <= len
            && range.start as usize <= len - range.size
    }

    /// Whether a range lies in its buffer and has no byte in common with another one.
    fn is_within_apart(&self, range: Range, other: Range) -> bool
        ensures { IsTrue result
            ↔ (IsWithin (map length self.now) range × (share other range ≡ false)) }
    {
        self.is_within(range) && !other.shares(range)
    }

    /// Whether a command fits: its ranges lie in their buffers, fills and updates begin at a
    /// multiple of 4 and write a multiple of 4 bytes, and a copy reads no byte that it writes.
    ///
    /// Source: Vulkan 1.3, "Clear Commands" and "Copy Commands".
    pub fn fits(&self, command: &Command) -> bool
        ensures { IsTrue result ↔ Fits (map length self.now) command.now }
    {
        let written = command.written(self.size(command.target()));
        if !self.is_within(written) || !command.is_aligned() {
            return false;
        }
        match command.read() {
            Some(read) => self.is_within_apart(read, written),
            None => true,
        }
    }

    /// Applies a fill.
    fn fill(&mut self, target: u32, offset: u32, size: FillSize, word: u32)
        requires { Fits (map length self.old) (Command.Fill target offset size word) }
        ensures { self.new ≡ effect (Command.Fill target offset size word) self.old }
    {
        let bytes = &mut self.bytes[target as usize];
        let count = size.bytes(offset, bytes.len());
        writes::fill(bytes.as_mut_slice(), offset as usize, count, word);
    }

    /// Applies an update.
    fn update(&mut self, target: u32, offset: u32, new: &Bytes)
        requires { Fits (map length self.old) (Command.Update target offset new.now) }
        ensures { self.new ≡ effect (Command.Update target offset new.now) self.old }
    {
        let bytes = &mut self.bytes[target as usize];
        writes::update(bytes.as_mut_slice(), offset as usize, new.as_slice());
    }

    /// Applies a copy from one place of a buffer to another.
    fn copy_inside(&mut self, buffer: u32, from: u32, to: u32, size: u32)
        requires { Fits (map length self.old) (Command.Copy buffer from buffer to size) }
        ensures { self.new ≡ effect (Command.Copy buffer from buffer to size) self.old }
    {
        let bytes = &mut self.bytes[buffer as usize];
        writes::copy_inside(
            bytes.as_mut_slice(),
            from as usize,
            to as usize,
            size as usize,
        );
    }

    /// Applies a copy from one buffer to another.
    fn copy_across(&mut self, source: u32, from: u32, target: u32, to: u32, size: u32)
        requires others { source ≢ target }
        requires fits { Fits (map length self.old) (Command.Copy source from target to size) }
        ensures { self.new ≡ effect (Command.Copy source from target to size) self.old }
    {
        let (source, target) = (source as usize, target as usize);
        if source < target {
            let (front, back) = self.bytes.split_at_mut(target);
            let bytes = front[source].as_slice();
            writes::copy_from(
                back[0].as_mut_slice(),
                to as usize,
                bytes,
                from as usize,
                size as usize,
            );
        } else {
            let (front, back) = self.bytes.split_at_mut(source);
            let bytes = back[0].as_slice();
            writes::copy_from(
                front[target].as_mut_slice(),
                to as usize,
                bytes,
                from as usize,
                size as usize,
            );
        }
    }

    /// Applies a command that fits. A copy reads all its bytes before it writes any.
    ///
    /// Source: Vulkan 1.3, "Clear Commands" and "Copy Commands". That a fill writes the least
    /// significant byte of its word first is this project's rule.
    pub fn apply(&mut self, command: &Command)
        requires { Fits (map length self.old) command.now }
        ensures bytes { self.new ≡ effect command.now self.old }
        ensures sizes { map length self.new ≡ map length self.old }
    {
        match command {
            Command::Fill {
                buffer,
                offset,
                size,
                word,
            } => self.fill(*buffer, *offset, *size, *word),
            Command::Update {
                buffer,
                offset,
                bytes,
            } => self.update(*buffer, *offset, bytes),
            Command::Copy {
                source,
                source_offset,
                target,
                target_offset,
                size,
            } => {
                if source == target {
                    self.copy_inside(*source, *source_offset, *target_offset, *size);
                } else {
                    self.copy_across(*source, *source_offset, *target, *target_offset, *size);
                }
            }
        }
    }
}
