//! The lines of the accesses that are kept.
ghost use Rattle.std.specs.Prelude.{◌≡◌, ℕ, IfOk, OnOk, true};
ghost use Rattle.vq_ground.specs.Lists.{has};
ghost use Rattle.vq_capture.specs.Points.{IsMember};
ghost use Rattle.vq_capture_clocks.specs.Levels.{AreInOrder};
ghost use Rattle.vq_capture_check.specs.Watches.{parts_of, touched_at};
ghost use Rattle.vq_capture_check.specs.Watching.{all_touched};

use crate::touched::TouchedThing;
use std::alloc::{AllocError, Global};
use std::collections::BTreeMap;
use vq_capture_touched::touch::Touch;

/// Adds the lines of some accesses.
fn add_lines(lines: &mut Vec<u64>, touches: &[Touch]) -> Result<(), AllocError>
    ensures kept { OnOk result ((l : ℕ) → has lines.old.items l ≡ true → has lines.new.items l ≡ true) }
    ensures added { OnOk result ((t : Touch) → IsMember t touches.now → has lines.new.items t.step.line ≡ true) }
{
    for touch in touches {
        lines.push(touch.step.line)?;
    }
    Ok(())
}

/// Adds the lines of the accesses of a resource.
fn add_thing(alloc: Global, lines: &mut Vec<u64>, thing: &TouchedThing) -> Result<(), AllocError>
    ensures kept { OnOk result ((l : ℕ) → has lines.old.items l ≡ true → has lines.new.items l ≡ true) }
    ensures added { OnOk result ((t : Touch) → IsMember t (all_touched (parts_of thing.now)) →
        has lines.new.items t.step.line ≡ true) }
{
    let indexed = thing.index.all(alloc)?;
    add_lines(lines, &indexed)?;
    add_lines(lines, &thing.recent)?;
    add_lines(lines, &thing.newest)?;
    Ok(())
}

/// The same for a resource among some.
fn add_resource(
    alloc: Global,
    lines: &mut Vec<u64>,
    things: &BTreeMap<u64, TouchedThing>,
    resource: u64,
) -> Result<(), AllocError>
    ensures kept { OnOk result ((l : ℕ) → has lines.old.items l ≡ true → has lines.new.items l ≡ true) }
    ensures added { OnOk result ((t : Touch) → IsMember t (all_touched (touched_at things.now resource)) →
        has lines.new.items t.step.line ≡ true) }
{
    match things.get(&resource) {
        Some(thing) => add_thing(alloc, lines, thing),
        None => Ok(()),
    }
}

/// The lines of all accesses that are kept, in their order. The error is want of memory.
pub fn touched_lines(
    alloc: Global,
    things: &BTreeMap<u64, TouchedThing>,
) -> Result<Vec<u64>, AllocError>
    ensures order { IfOk result (λ lines. AreInOrder lines.items) }
    ensures all { IfOk result (λ lines. (r : ℕ) (t : Touch) → IsMember t (all_touched (touched_at things.now r)) →
        has lines.items t.step.line ≡ true) }
{
    let mut lines = Vec::new(alloc);
    for resource in things.keys() {
        add_resource(alloc, &mut lines, things, *resource)?;
    }
    lines.sort_unstable();
    Ok(lines)
}
