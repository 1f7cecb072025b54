//! The accesses of all resources.
ghost use Rattle.std.specs.Prelude.{◌≡◌, [], ℕ, OnOk};
ghost use Rattle.std.specs.Option.{MatchOption};
ghost use Rattle.vq_capture.specs.Races.{access_of};
ghost use Rattle.vq_capture_check.specs.Watching.{all_touched, touched_by};
ghost use Rattle.vq_capture_check.specs.Watches.{parts_of, touched_at, with_touched};

use crate::touched::TouchedThing;
use std::alloc::{AllocError, Global};
use std::collections::BTreeMap;
use vq_capture::statement::Statement;
use vq_capture_touched::conflicts::access_of;
use vq_capture_touched::touch::Touch;

/// The accesses of what a step accesses, if there are some.
pub fn thing_of<'a>(
    things: &'a BTreeMap<u64, TouchedThing>,
    said: &Statement,
) -> Option<&'a TouchedThing>
    ensures { MatchOption result (touched_by (touched_at things.now) (access_of said.now) ≡ [])
        (λ thing. touched_by (touched_at things.now) (access_of said.now) ≡ all_touched (parts_of thing.now)) }
{
    match access_of(said) {
        Some(access) => things.get(&access.resource),
        None => None,
    }
}

/// Adds an access of a resource. The error is want of memory.
pub fn add_to(
    alloc: Global,
    things: &mut BTreeMap<u64, TouchedThing>,
    resource: u64,
    touch: Touch,
) -> Result<(), AllocError>
    ensures { OnOk result ((r : ℕ) → touched_at things.new r ≡
        with_touched (touched_at things.old) resource touch r) }
{
    if let Some(thing) = things.get_mut(&resource) {
        thing.grow(alloc, touch)?;
        return Ok(());
    }
    let thing = TouchedThing::first(alloc, touch)?;
    things.insert(resource, thing)?;
    Ok(())
}
