//! Kinds of accesses.
ghost use Rattle.std.specs.Prelude.{◌≡◌};
ghost use Rattle.vq_capture.specs.MaskWords.{access_of, accesses_of, no_access, with_access};

use crate::parts::{first_part, is};
use vq_capture::stage::{AccessMask, AccessType};

/// A set of no accesses.
pub fn no_access() -> AccessMask
    ensures { result ≡ no_access }
{
    AccessMask {
        memory_read: false,
        memory_write: false,
        index_read: false,
        attribute_read: false,
        uniform_read: false,
        sampled_read: false,
        storage_read: false,
        storage_write: false,
        attachment_read: false,
    }
}

/// Puts a kind of accesses into a set.
fn add_access(mask: &mut AccessMask, access: AccessType)
    ensures { mask.new ≡ with_access mask.old access }
{
    match access {
        AccessType::MemoryRead => mask.memory_read = true,
        AccessType::MemoryWrite => mask.memory_write = true,
        AccessType::IndexRead => mask.index_read = true,
        AccessType::AttributeRead => mask.attribute_read = true,
        AccessType::UniformRead => mask.uniform_read = true,
        AccessType::SampledRead => mask.sampled_read = true,
        AccessType::StorageRead => mask.storage_read = true,
        AccessType::StorageWrite => mask.storage_write = true,
        AccessType::AttachmentRead => mask.attachment_read = true,
    }
}

/// The kind of accesses that a word names.
fn access_of(word: &[u8]) -> Option<AccessType>
    ensures { result ≡ access_of word.now }
{
    if is(word, "read") {
        return Some(AccessType::MemoryRead);
    }
    if is(word, "write") {
        return Some(AccessType::MemoryWrite);
    }
    if is(word, "index") {
        return Some(AccessType::IndexRead);
    }
    if is(word, "attribute") {
        return Some(AccessType::AttributeRead);
    }
    if is(word, "uniform") {
        return Some(AccessType::UniformRead);
    }
    if is(word, "sampled") {
        return Some(AccessType::SampledRead);
    }
    if is(word, "storage-read") {
        return Some(AccessType::StorageRead);
    }
    if is(word, "storage-write") {
        return Some(AccessType::StorageWrite);
    }
    if is(word, "attachment") {
        return Some(AccessType::AttachmentRead);
    }
    None
}

/// The accesses of a word between plus signs.
pub fn accesses_of(word: &[u8]) -> Option<AccessMask>
    ensures { result ≡ accesses_of word.now }
{
    let mut mask = no_access();
    let mut left = Some(word);
    while let Some(part) = left {
        let (first, rest) = first_part(part, b'+');
        let Some(access) = access_of(first) else {
            return None;
        };
        add_access(&mut mask, access);
        left = rest;
    }
    Some(mask)
}
