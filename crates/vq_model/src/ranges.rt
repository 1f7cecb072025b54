//! The bytes that commands write and read.
ghost use Rattle.std.specs.Prelude.{◌≡◌, List, ℕ, Some};
ghost use Rattle.std.specs.List.{slice_index_or};
ghost use Rattle.vq_model.specs.Ranges.{fill_size, is_aligned, read_range, share, written_range};
ghost use Rattle.vq_model.specs.FittingCommands.{is_aligned_command};

use crate::script::{Command, FillSize};

/// Bytes of one buffer: so many, from `start` on.
#[derive(Clone, Copy)]
pub struct Range {
    pub buffer: u32,
    pub start: u32,
    /// In bytes.
    pub size: usize,
}

impl Range {
    /// Whether the ranges have a byte in common.
    pub fn shares(self, other: Range) -> bool
        ensures { result ≡ share self other }
    {
        if self.buffer != other.buffer {
            return false;
        }
        if self.start < other.start {
            ((other.start - self.start) as usize) < self.size && 0 < other.size
        } else {
            ((self.start - other.start) as usize) < other.size && 0 < self.size
        }
    }
}

/// Whether a place or a number of bytes is a multiple of 4.
pub fn is_aligned(n: u64) -> bool
    ensures { result ≡ is_aligned n }
{
    n % 4 == 0
}

impl FillSize {
    /// How many bytes a fill from `offset` on writes in a buffer of `len` bytes.
    pub fn bytes(self, offset: u32, len: usize) -> usize
        ensures { result ≡ fill_size self offset len }
    {
        match self {
            FillSize::Whole => len.saturating_sub(offset as usize) / 4 * 4,
            FillSize::Count(count) => count as usize,
        }
    }
}

impl Command {
    /// The buffer that the command writes.
    pub fn target(&self) -> u32
        ensures { (sizes : List ℕ) → (written_range sizes self.now).buffer ≡ result }
    {
        match self {
            Command::Fill { buffer, .. } => *buffer,
            Command::Update { buffer, .. } => *buffer,
            Command::Copy { target, .. } => *target,
        }
    }

    /// What the command writes, where its buffer has so many bytes.
    pub fn written(&self, target_size: usize) -> Range
        ensures { (sizes : List ℕ) →
            slice_index_or sizes (written_range sizes self.now).buffer 0 ≡ target_size →
            result ≡ written_range sizes self.now }
    {
        match self {
            Command::Fill {
                buffer,
                offset,
                size,
                ..
            } => Range {
                buffer: *buffer,
                start: *offset,
                size: size.bytes(*offset, target_size),
            },
            Command::Update {
                buffer,
                offset,
                bytes,
            } => Range {
                buffer: *buffer,
                start: *offset,
                size: bytes.as_slice().len(),
            },
            Command::Copy {
                target,
                target_offset,
                size,
                ..
            } => Range {
                buffer: *target,
                start: *target_offset,
                size: *size as usize,
            },
        }
    }

    /// What the command reads.
    pub fn read(&self) -> Option<Range>
        ensures { result ≡ read_range self.now }
    {
        match self {
            Command::Copy {
                source,
                source_offset,
                size,
                ..
            } => Some(Range {
                buffer: *source,
                start: *source_offset,
                size: *size as usize,
            }),
            _ => None,
        }
    }

    /// Whether a fill or an update begins at a multiple of 4 and writes whole words; a copy may
    /// stand anywhere. Source: Vulkan 1.3, vkCmdFillBuffer and vkCmdUpdateBuffer.
    pub fn is_aligned(&self) -> bool
        ensures { result ≡ is_aligned_command self.now }
    {
        match self {
            Command::Fill {
                offset,
                size: FillSize::Whole,
                ..
            } => is_aligned(u64::from(*offset)),
            Command::Fill {
                offset,
                size: FillSize::Count(count),
                ..
            } => { is_aligned(u64::from(*offset)) && is_aligned(u64::from(*count)) }
            Command::Update { offset, bytes, .. } => {
                is_aligned(u64::from(*offset)) && is_aligned(bytes.as_slice().len() as u64)
            }
            Command::Copy { .. } => true,
        }
    }
}
