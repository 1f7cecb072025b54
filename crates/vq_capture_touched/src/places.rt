//! The places of accesses: the first unit of each, with its stamp.
ghost use Rattle.std.specs.Prelude.{◌≡◌, ◌++◌, ◌≤◌, OnOk, if◌then◌else◌};
ghost use Rattle.vq_capture_touched.specs.Places.{stamps_from, stamps_up_to, stamps_within};

use std::alloc::AllocError;
use std::collections::BTreeSet;

/// Adds the stamps of those that begin at a unit or behind it.
fn add_from(
    places: &BTreeSet<(u64, u64)>,
    first: u64,
    stamps: &mut Vec<u64>,
) -> Result<(), AllocError>
    ensures { OnOk result (stamps.new.items ≡ stamps.old.items ++ stamps_from first places.now.keys) }
{
    for place in places.range((first, 0)..) {
        stamps.push(place.1)?;
    }
    Ok(())
}

/// Adds the stamps of those that begin at a unit or behind it, and before another one.
fn add_between(
    places: &BTreeSet<(u64, u64)>,
    first: u64,
    end: u64,
    stamps: &mut Vec<u64>,
) -> Result<(), AllocError>
    requires { first ≤ end }
    ensures { OnOk result (stamps.new.items ≡ stamps.old.items ++ stamps_within first end places.now.keys) }
{
    for place in places.range((first, 0)..(end, 0)) {
        stamps.push(place.1)?;
    }
    Ok(())
}

/// Adds the stamps of those that begin at a unit or behind it, and before another one, if there is one. The error is
/// want of memory.
pub fn add_within(
    places: &BTreeSet<(u64, u64)>,
    first: u64,
    end: Option<u64>,
    stamps: &mut Vec<u64>,
) -> Result<(), AllocError>
    ensures { OnOk result (stamps.new.items ≡ stamps.old.items ++ stamps_up_to first end places.now.keys) }
{
    match end {
        Some(end) => {
            if first <= end {
                add_between(places, first, end, stamps)
            } else {
                add_from(places, first, stamps)
            }
        }
        None => add_from(places, first, stamps),
    }
}
