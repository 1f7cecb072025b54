//! The place of a number among rising ones.
ghost use Rattle.std.specs.Prelude.{◌≡◌, ◌<◌, ◌^◌, ◌==◌, ℕ, find, length, slice_index};
ghost use Rattle.std.specs.List.{range_with_len};

/// The place at which a number stands among rising ones.
pub(crate) fn place_of(numbers: &[u64], number: u64) -> Option<u32>
    requires rising { (i j : ℕ) → i < j → j < length numbers.now →
        slice_index numbers.now i < slice_index numbers.now j }
    requires few { length numbers.now < 2 ^ 32 }
    ensures { result ≡ find (λ i. slice_index numbers.now i == number) (range_with_len 0 (length numbers.now)) }
{
    match numbers.binary_search(&number) {
        Ok(place) => Some(place as u32),
        Err(_) => None,
    }
}
