//! The last access that is loose: one that conflicts with a step, and some point of it isn't before that.
ghost use Rattle.std.specs.Prelude.{◌≡◌, ℕ, IfOk, IsTrue, OnOk, Some, false, map, true};
ghost use Rattle.std.specs.Ordering.{nat_cmp};
ghost use Rattle.std.specs.BTreeMap.{get};
ghost use Rattle.vq_ground.specs.Lists.{has};
ghost use Rattle.vq_capture_touched.specs.Indexed.{touches_of};
ghost use Rattle.vq_capture_touched.specs.Kinds.{lists};
ghost use Rattle.vq_capture_check.specs.Searches.{AreFast, AreFound};
ghost use Rattle.vq_capture_check.specs.Watching.{all_touched, is_loose, last_loose, one_command};
ghost use Rattle.vq_capture_check.specs.Watches.{clocking_of, parts_of};

use crate::touched::{TouchedThing, goes_on};
use crate::watch::{Clocked, is_loose, known_to_all, last_loose};
use std::alloc::{AllocError, Global};
use vq_capture::capture::Step;
use vq_capture_touched::index::TouchIndex;
use vq_capture_touched::kind::Kind;
use vq_capture_touched::touch::Touch;

/// Adds the stamps of those of a kind that may be loose. Where the latest is before all points of a step, each is.
fn add_kind(
    cut: u64,
    points: &[Clocked],
    b: &Step,
    kind: &Kind,
    stamps: &mut Vec<u64>,
) -> Result<(), AllocError>
    ensures kept { OnOk result ((s : ℕ) → has stamps.old.items s ≡ true → has stamps.new.items s ≡ true) }
    ensures near { OnOk result ((s : ℕ) (t : Touch) → lists kind.now s t ≡ true →
        is_loose cut (map clocking_of points.now) b.now t ≡ true → has stamps.new.items s ≡ true) }
{
    if known_to_all(cut, kind.latest(), points) {
        return Ok(());
    }
    if let Some(line) = kind.add_edges(b, stamps)? {
        if known_to_all(cut, &kind.at_line(line), points) {
            return Ok(());
        }
    }
    kind.add_near(b, stamps)?;
    Ok(())
}

/// The stamps of those that may be loose.
fn near(
    alloc: Global,
    cut: u64,
    points: &[Clocked],
    b: &Step,
    kinds: &[Kind],
) -> Result<Vec<u64>, AllocError>
    ensures { IfOk result (λ stamps. AreFound cut (map clocking_of points.now) b.now kinds.now stamps.items) }
{
    let mut stamps = Vec::new(alloc);
    for kind in kinds {
        add_kind(cut, points, b, kind, &mut stamps)?;
    }
    Ok(stamps)
}

/// Whether the one that has a stamp, if there is one, isn't loose.
fn is_fast(cut: u64, points: &[Clocked], b: &Step, index: &TouchIndex, stamp: u64) -> bool
    ensures { IsTrue result → (t : Touch) → get nat_cmp index.now.touches stamp ≡ Some t →
        is_loose cut (map clocking_of points.now) b.now t ≡ false }
{
    match index.touch(stamp) {
        Some(touch) => !is_loose(cut, points, b, touch),
        None => true,
    }
}

/// Whether none of those that have some stamps is loose.
fn none_loose(cut: u64, points: &[Clocked], b: &Step, index: &TouchIndex, stamps: &[u64]) -> bool
    ensures { IsTrue result → AreFast cut (map clocking_of points.now) b.now index.now.touches stamps.now }
{
    for stamp in stamps {
        if !is_fast(cut, points, b, index, *stamp) {
            return false;
        }
    }
    true
}

/// The last line of those in an index that is loose. All are looked at only where one is.
fn last_indexed(
    alloc: Global,
    cut: u64,
    points: &[Clocked],
    b: &Step,
    index: &TouchIndex,
) -> Result<Option<u64>, AllocError>
    ensures { IfOk result (λ line. line ≡ last_loose cut (map clocking_of points.now) b.now (touches_of index.now)) }
{
    let stamps = near(alloc, cut, points, b, index.kinds())?;
    if none_loose(cut, points, b, index, &stamps) {
        return Ok(None);
    }
    let touches = index.all(alloc)?;
    Ok(last_loose(cut, points, b, &touches))
}

/// The last line of some that is loose. Of those of the command of the step none is.
fn last_newest(cut: u64, points: &[Clocked], b: &Step, newest: &[Touch]) -> Option<u64>
    requires { one_command newest.now ≡ true }
    ensures { result ≡ last_loose cut (map clocking_of points.now) b.now newest.now }
{
    if goes_on(b, newest) {
        return None;
    }
    last_loose(cut, points, b, newest)
}

/// The last line of the accesses of a resource that is loose.
pub fn last_in(
    alloc: Global,
    cut: u64,
    points: &[Clocked],
    b: &Step,
    thing: &TouchedThing,
) -> Result<Option<u64>, AllocError>
    ensures { IfOk result (λ line. line ≡
        last_loose cut (map clocking_of points.now) b.now (all_touched (parts_of thing.now))) }
{
    if let Some(line) = last_newest(cut, points, b, &thing.newest) {
        return Ok(Some(line));
    }
    if let Some(line) = last_loose(cut, points, b, &thing.recent) {
        return Ok(Some(line));
    }
    let found = last_indexed(alloc, cut, points, b, &thing.index)?;
    Ok(found)
}
