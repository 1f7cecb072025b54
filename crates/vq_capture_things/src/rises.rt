//! The signals that raised timelines.
ghost use Rattle.std.specs.Prelude.{◌≡◌, ◌==◌, ◌<◌, ◌≤◌, ℕ, cond, length, OnErr, OnOk};
ghost use Rattle.std.specs.Option.{option_to_list};
ghost use Rattle.std.proofs.Math.ListN.{get_or};
ghost use Rattle.vq_capture_things.specs.declared.rise.Rise.{Rise};
ghost use Rattle.vq_capture_things.specs.Facts.{IsRising, first_rise, is_reached, with_rise};
ghost use Rattle.vq_capture_things.specs.Lookups.{items_at};

use crate::maps::push;
use crate::rise::Rise;
use std::alloc::{AllocError, Global};
use std::collections::BTreeMap;

/// Whether the last of some signals reaches a value.
fn is_reached(rises: &[Rise], value: u64) -> bool
    ensures { result ≡ is_reached value rises.now }
{
    match rises.last() {
        Some(rise) => value <= rise.value,
        None => false,
    }
}

/// Whether the last signal of a timeline reaches a value.
fn has_reached(map: &BTreeMap<u64, Vec<Rise>>, timeline: u64, value: u64) -> bool
    ensures { result ≡ is_reached value (items_at map.now timeline) }
{
    match map.get(&timeline) {
        Some(rises) => is_reached(rises, value),
        None => false,
    }
}

/// Adds a signal to those of a timeline, where it raises its value.
pub fn raise(
    alloc: Global,
    map: &mut BTreeMap<u64, Vec<Rise>>,
    timeline: u64,
    rise: Rise,
) -> Result<(), AllocError>
    ensures raised { OnOk result ((q : ℕ) → items_at map.new q
        ≡ cond (timeline == q) (with_rise (items_at map.old q) rise) (items_at map.old q)) }
    ensures err { OnErr result ((q : ℕ) → items_at map.new q ≡ items_at map.old q) }
{
    if has_reached(map, timeline, rise.value) {
        return Ok(());
    }
    push(alloc, map, timeline, rise)
}

/// The place of the first of some signals, whose values rise, that reaches a value; their number where none does.
fn first_place(rises: &[Rise], value: u64) -> usize
    requires { IsRising rises.now }
    ensures within { result ≤ length rises.now }
    ensures below { (k : ℕ) → (d : Rise) → k < result → (get_or rises.now k d).value < value }
    ensures reached { (d : Rise) → result < length rises.now → value ≤ (get_or rises.now result d).value }
{
    let mut low = 0;
    let mut high = rises.len();
    while low < high {
        let middle = low + (high - low) / 2;
        if rises[middle].value < value {
            low = middle + 1;
        } else {
            high = middle;
        }
    }
    low
}

/// The line of the first of some signals, whose values rise, that reaches a value.
fn first_rise(rises: &[Rise], value: u64) -> Option<u64>
    requires { IsRising rises.now }
    ensures { option_to_list result ≡ first_rise value rises.now }
{
    let place = first_place(rises, value);
    if place < rises.len() {
        Some(rises[place].line)
    } else {
        None
    }
}

/// The line of the first signal of a timeline that reaches a value.
pub fn rise_of(map: &BTreeMap<u64, Vec<Rise>>, timeline: u64, value: u64) -> Option<u64>
    requires { IsRising (items_at map.now timeline) }
    ensures { option_to_list result ≡ first_rise value (items_at map.now timeline) }
{
    match map.get(&timeline) {
        Some(rises) => first_rise(rises, value),
        None => None,
    }
}
