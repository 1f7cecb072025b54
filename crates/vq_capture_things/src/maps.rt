//! Maps from the lines of declarations to numbers and lists.
ghost use Rattle.std.specs.Prelude.{◌≡◌, ◌==◌, ◌&&◌, ◌++◌, [], ◌∷◌, ℕ, Some, cond, OnErr, OnOk};
ghost use Rattle.vq_capture_things.specs.Lookups.{has, has_pair, items_at};

use std::alloc::{AllocError, Global};
use std::collections::BTreeMap;

/// The number that a thing has.
pub fn number(map: &BTreeMap<u64, u64>, key: u64) -> Option<u64>
    ensures { result ≡ has map.now key }
{
    map.get(&key).copied()
}

/// Gives a thing a number.
pub fn put(map: &mut BTreeMap<u64, u64>, key: u64, value: u64) -> Result<(), AllocError>
    ensures put { OnOk result ((q : ℕ) → has map.new q ≡ cond (key == q) (Some value) (has map.old q)) }
    ensures err { OnErr result ((q : ℕ) → has map.new q ≡ has map.old q) }
{
    map.insert(key, value)?;
    Ok(())
}

/// Adds to the list of a thing.
pub fn push<T: Copy>(
    alloc: Global,
    map: &mut BTreeMap<u64, Vec<T>>,
    key: u64,
    item: T,
) -> Result<(), AllocError>
    ensures pushed { OnOk result ((q : ℕ) → items_at map.new q
        ≡ cond (key == q) (items_at map.old q ++ item ∷ []) (items_at map.old q)) }
    ensures err { OnErr result ((q : ℕ) → items_at map.new q ≡ items_at map.old q) }
{
    if let Some(items) = map.get_mut(&key) {
        items.push(item)?;
        return Ok(());
    }
    let mut items = Vec::new(alloc);
    items.push(item)?;
    map.insert(key, items)?;
    Ok(())
}

/// Empties the list of a thing.
pub fn empty(map: &mut BTreeMap<u64, Vec<u64>>, key: u64)
    ensures { (q : ℕ) → items_at map.new q ≡ cond (key == q) [] (items_at map.old q) }
{
    map.remove(&key);
}

/// The number that two things have.
pub fn pair_number(map: &BTreeMap<(u64, u64), u64>, first: u64, second: u64) -> Option<u64>
    ensures { result ≡ has_pair map.now first second }
{
    map.get(&(first, second)).copied()
}

/// Gives two things a number.
pub fn put_pair(
    map: &mut BTreeMap<(u64, u64), u64>,
    first: u64,
    second: u64,
    value: u64,
) -> Result<(), AllocError>
    ensures put { OnOk result ((p q : ℕ) → has_pair map.new p q
        ≡ cond ((first == p) && (second == q)) (Some value) (has_pair map.old p q)) }
    ensures err { OnErr result ((p q : ℕ) → has_pair map.new p q ≡ has_pair map.old p q) }
{
    map.insert((first, second), value)?;
    Ok(())
}
