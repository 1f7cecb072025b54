//! The numbers from 0 on. A job's commands and signals follow one another, so each is a part of these.
ghost use Rattle.std.specs.Prelude.{◌≡◌, ◌<◌, ℕ, true, length, IfOk};
ghost use Rattle.std.specs.List.{range_with_len};
ghost use Rattle.vq_ground.specs.Lists.{has};

use std::alloc::{AllocError, Global};
use vq_model::indices::Indices;

/// The numbers from 0 on, so many of them.
pub(crate) fn first_numbers(alloc: Global, count: u32) -> Result<Vec<u32>, AllocError>
    ensures { IfOk result (λ numbers. numbers.items ≡ range_with_len 0 count) }
{
    let mut numbers = Vec::with_capacity(alloc, count as usize)?;
    for number in 0..count {
        numbers.push(number)?;
    }
    Ok(numbers)
}

/// The part of the numbers that are these indices.
#[inline(always)]
pub(crate) fn part<'a>(numbers: &'a [u32], indices: &Indices) -> &'a [u32]
    requires numbers { numbers.now ≡ range_with_len 0 (length numbers.now) }
    requires within { (n : ℕ) → has indices.now n ≡ true → n < length numbers.now }
    ensures { result.now ≡ indices.now }
{
    let count = indices.len();
    if count == 0 {
        return &numbers[..0];
    }
    let first = indices.first() as usize;
    &numbers[first..first + count]
}
