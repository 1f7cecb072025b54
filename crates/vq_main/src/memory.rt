//! What becomes of memory that is given back.

use std::alloc::{AllocError, Global};

/// The most bytes of an input that is read.
const LONGEST: usize = 4_194_304;

/// Asks for the memory of the longest input and gives it back unused: what is given back later, up to this size, is kept
/// for what comes next. So a plan is made in the memory in which the text of its script stood.
///
/// Source: `M_MMAP_THRESHOLD` in mallopt(3). A list of 128 KiB or more has pages of its own, which go back to the system
/// with it, until the first of a size is given back. Where there isn't so much memory, nothing changes.
pub fn keep_given_back(alloc: Global) {
    let _unused: Result<Vec<u8>, AllocError> = Vec::with_capacity(alloc, LONGEST);
}
