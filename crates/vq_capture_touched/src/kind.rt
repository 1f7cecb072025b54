//! The accesses of one kind, by their first units.
ghost use Rattle.std.specs.Prelude.{◌≡◌, ◌≤◌, ◌+◌, ◌/◌, ◌==◌, ℕ, true, false, IsTrue, IfOk, IfSome, OnOk, get_or, set};
ghost use Rattle.std.specs.BTreeSet.{btree_set_len};
ghost use Rattle.vq_capture.specs.Races.{conflict};
ghost use Rattle.vq_ground.specs.Lists.{has};
ghost use Rattle.vq_capture_touched.specs.Kinds.{may_stand, same_kind};
ghost use Rattle.vq_capture_touched.specs.Standing.{stands_for};

use crate::joins::same_queue;
use crate::places::add_within;
use crate::same::{range_of, same_kind, writes};
use crate::standing::{at_stages_of, same_thread};
use crate::touch::Touch;
use std::alloc::{AllocError, Global};
use std::collections::BTreeSet;
use vq_capture::capture::Step;
use vq_capture::statement::Range;

/// How many parts are told apart, once there are many accesses.
const PARTS: usize = 256;

const MANY: usize = 512;

/// The accesses of one kind that are kept, by their first units and their stamps.
#[derive(Drop)]
pub struct Kind {
    /// One of them, at the line of the latest.
    latest: Touch,
    /// At least the length of each.
    widest: u64,
    places: BTreeSet<(u64, u64)>,
    /// The units are told apart by parts of this length.
    width: u64,
    /// By parts, a line at least that of each access that begins there. It says nothing of parts behind the last one.
    lines: Vec<u64>,
}

/// The greater one of two numbers.
fn greater(a: u64, b: u64) -> u64
    ensures first { a ≤ result }
    ensures second { b ≤ result }
{
    if a < b { b } else { a }
}

/// Whether two lengths are of one size: their highest bits are near one another.
fn same_size(a: u64, b: u64) -> bool {
    (a | 1).leading_zeros() / 2 == (b | 1).leading_zeros() / 2
}

/// The number of the unit behind the one behind a range, if it is one.
fn end_of(range: Range) -> Option<u64>
    ensures { IfSome result (λ end. end ≡ range.offset + range.length + 1) }
{
    let Some(end) = range.offset.checked_add(range.length) else {
        return None;
    };
    end.checked_add(1)
}

/// The part in which a unit stands.
fn part_of(unit: u64, width: u64) -> u64
    ensures { result ≡ unit / width }
{
    if width == 0 { 0 } else { unit / width }
}

/// Puts a line in place of that of a part, if there is one.
fn mark(lines: &mut Vec<u64>, part: u64, line: u64)
    ensures { lines.new.items ≡ set lines.old.items part line }
{
    if part < lines.len() as u64 {
        lines[part as usize] = line;
    }
}

/// The greatest of the lines of some parts, if there are as many.
fn greatest(lines: &[u64], first: u64, last: u64) -> Option<u64>
    ensures { IfSome result (λ line. (k d : ℕ) → first ≤ k → k ≤ last → get_or lines.now k d ≤ line) }
{
    if lines.len() as u64 <= last {
        return None;
    }
    let mut line = 0;
    let mut at = first;
    while at <= last {
        line = greater(line, lines[at as usize]);
        at += 1;
    }
    Some(line)
}

/// The greatest of the lines of as many parts as are joined to one, or a line where there aren't as many.
fn joined_line(lines: &[u64], part: u64, times: u64, latest: u64) -> u64
    ensures { (k n : ℕ) → k / times ≡ part → n ≤ latest → n ≤ get_or lines.now k latest → n ≤ result }
{
    if times == 0 {
        return latest;
    }
    let Some(first) = part.checked_mul(times) else {
        return latest;
    };
    let Some(end) = first.checked_add(times) else {
        return latest;
    };
    greatest(lines, first, end - 1).unwrap_or(latest)
}

/// The lines of longer parts, each of which is so many joined. The error is want of memory.
fn joined(alloc: Global, lines: &[u64], times: u64, latest: u64) -> Result<Vec<u64>, AllocError>
    ensures { IfOk result (λ all. (k n : ℕ) → n ≤ latest → n ≤ get_or lines.now k latest →
        n ≤ get_or all.items (k / times) latest) }
{
    let mut all = Vec::new(alloc);
    let mut part = 0;
    while part < PARTS as u64 {
        all.push(joined_line(lines, part, times, latest))?;
        part += 1;
    }
    Ok(all)
}

/// Two units with many parts between them, both within a range, if it is so long.
fn inner_units(range: Range, width: u64) -> Option<(u64, u64)> {
    if range.length / 4 < width {
        return None;
    }
    let Some(low) = range.offset.checked_add(width) else {
        return None;
    };
    let Some(high) = range.offset.checked_add(range.length - width) else {
        return None;
    };
    Some((low, high))
}

/// Whether an access may stand for some of a kind, of which this is one.
fn may_stand(w: &Step, latest: &Step) -> bool
    ensures { result ≡ may_stand w.now latest.now }
{
    writes(&w.statement)
        || (!writes(&latest.statement)
            && (same_thread(latest.thread, w.thread)
                || (same_queue(latest.queue, w.queue)
                    && at_stages_of(&w.statement, &latest.statement))))
}

impl Kind {
    ghost use Rattle.vq_capture_touched.specs.Kinds.{lists};

    /// A kind that lists nothing, for accesses like one.
    pub(crate) fn new(alloc: Global, touch: &Touch) -> Kind
        ensures latest { result.latest ≡ touch.now }
    {
        Kind {
            latest: *touch,
            widest: range_of(&touch.step.statement).length,
            places: BTreeSet::new(alloc),
            width: 0,
            lines: Vec::new(alloc),
        }
    }

    /// One of the accesses, at the line of the latest.
    pub fn latest(&self) -> &Touch
        ensures { result.now ≡ self.now.latest }
    {
        &self.latest
    }

    pub(crate) fn is_empty(&self) -> bool
        ensures { result ≡ (btree_set_len self.now.places == 0) }
    {
        self.places.len() == 0
    }

    /// Whether an access is to be listed here.
    pub(crate) fn fits(&self, touch: &Touch) -> bool
        ensures { IsTrue result → same_kind self.now.latest touch.now ≡ true }
    {
        same_kind(&self.latest, touch)
            && same_size(self.widest, range_of(&touch.step.statement).length)
    }

    /// One of the accesses, at another line.
    pub fn at_line(&self, line: u64) -> Touch
        ensures { result ≡ record self.now.latest { step = record self.now.latest.step { line = line } } }
    {
        let latest = self.latest;
        Touch {
            step: Step {
                line,
                ..latest.step
            },
            at: latest.at,
        }
    }

    /// Tells parts apart. The error is want of memory.
    fn part(&mut self, alloc: Global, unit: u64) -> Result<(), AllocError>
        ensures latest { self.new.latest ≡ self.old.latest }
        ensures kept { (s : ℕ) (t : Touch) → lists self.old s t ≡ true → lists self.new s t ≡ true }
    {
        self.lines = vec![in alloc; self.latest.step.line; PARTS]?;
        self.width = unit / (PARTS as u64 / 2) + 1;
        Ok(())
    }

    /// Makes parts so much longer, if they then have a length. The error is want of memory.
    fn widen(&mut self, alloc: Global, times: u64) -> Result<(), AllocError>
        ensures latest { self.new.latest ≡ self.old.latest }
        ensures kept { (s : ℕ) (t : Touch) → lists self.old s t ≡ true → lists self.new s t ≡ true }
    {
        let Some(width) = self.width.checked_mul(times) else {
            return Ok(());
        };
        self.lines = joined(alloc, &self.lines, times, self.latest.step.line)?;
        self.width = width;
        Ok(())
    }

    /// Tells the part of a unit apart from others, if there are many accesses. The error is want of memory.
    fn spread(&mut self, alloc: Global, unit: u64) -> Result<(), AllocError>
        ensures latest { self.new.latest ≡ self.old.latest }
        ensures kept { (s : ℕ) (t : Touch) → lists self.old s t ≡ true → lists self.new s t ≡ true }
    {
        let part = part_of(unit, self.width);
        if self.places.len() < MANY || part < self.lines.len() as u64 {
            return Ok(());
        }
        if self.lines.is_empty() {
            self.part(alloc, unit)
        } else {
            self.widen(alloc, part / (PARTS as u64 / 2) + 1)
        }
    }

    /// Lists an access. The error is want of memory.
    pub(crate) fn list(
        &mut self,
        alloc: Global,
        stamp: u64,
        touch: &Touch,
    ) -> Result<(), AllocError>
        requires { same_kind self.old.latest touch.now ≡ true }
        ensures listed { OnOk result (lists self.new stamp touch.now ≡ true) }
        ensures kept { (s : ℕ) (t : Touch) → lists self.old s t ≡ true → lists self.new s t ≡ true }
    {
        self.spread(alloc, range_of(&touch.step.statement).offset)?;
        self.put(stamp, touch)
    }

    /// Lists an access in its part. The error is want of memory.
    fn put(&mut self, stamp: u64, touch: &Touch) -> Result<(), AllocError>
        requires { same_kind self.old.latest touch.now ≡ true }
        ensures listed { OnOk result (lists self.new stamp touch.now ≡ true) }
        ensures kept { (s : ℕ) (t : Touch) → lists self.old s t ≡ true → lists self.new s t ≡ true }
    {
        let range = range_of(&touch.step.statement);
        self.places.insert((range.offset, stamp))?;
        self.latest.step.line = greater(self.latest.step.line, touch.step.line);
        self.widest = greater(self.widest, range.length);
        let part = part_of(range.offset, self.width);
        mark(&mut self.lines, part, self.latest.step.line);
        Ok(())
    }

    /// Lists an access no more.
    pub(crate) fn unlist(&mut self, stamp: u64, touch: &Touch)
        ensures { (s : ℕ) (t : Touch) → (s == stamp) ≡ false → lists self.old s t ≡ true → lists self.new s t ≡ true }
    {
        let range = range_of(&touch.step.statement);
        self.places.remove(&(range.offset, stamp));
    }

    /// Adds the stamps of those with which a step may conflict. The error is want of memory.
    pub fn add_near(&self, b: &Step, stamps: &mut Vec<u64>) -> Result<(), AllocError>
        ensures kept { OnOk result ((s : ℕ) → has stamps.old.items s ≡ true → has stamps.new.items s ≡ true) }
        ensures near { OnOk result ((s : ℕ) (t : Touch) → lists self.now s t ≡ true →
            conflict t.step b.now ≡ true → has stamps.new.items s ≡ true) }
    {
        if !writes(&self.latest.step.statement) && !writes(&b.statement) {
            return Ok(());
        }
        let range = range_of(&b.statement);
        let first = range.offset.saturating_sub(self.widest);
        let end = end_of(range);
        add_within(&self.places, first, end, stamps)?;
        Ok(())
    }

    /// Adds the stamps of those near the ends of the units of a step, if these are many, with which it may conflict. It
    /// gives a line at least that of each other one with which it may. The error is want of memory.
    pub fn add_edges(&self, b: &Step, stamps: &mut Vec<u64>) -> Result<Option<u64>, AllocError>
        ensures kept { OnOk result ((s : ℕ) → has stamps.old.items s ≡ true → has stamps.new.items s ≡ true) }
        ensures near { IfOk result (λ found. IfSome found (λ line. (s : ℕ) (t : Touch) → lists self.now s t ≡ true →
            conflict t.step b.now ≡ true → has stamps.new.items s ≡ false → t.step.line ≤ line)) }
    {
        let range = range_of(&b.statement);
        let Some((low, high)) = inner_units(range, self.width) else {
            return Ok(None);
        };
        let Some(line) = greatest(
            &self.lines,
            part_of(low, self.width),
            part_of(high, self.width),
        ) else {
            return Ok(None);
        };
        let start = range.offset.saturating_sub(self.widest);
        add_within(&self.places, start, Some(low), stamps)?;
        add_within(&self.places, high, end_of(range), stamps)?;
        Ok(Some(line))
    }

    /// Adds the stamps of those for which an access may stand. The error is want of memory.
    pub(crate) fn add_covered(&self, w: &Step, stamps: &mut Vec<u64>) -> Result<(), AllocError>
        ensures kept { OnOk result ((s : ℕ) → has stamps.old.items s ≡ true → has stamps.new.items s ≡ true) }
        ensures covered { OnOk result ((s : ℕ) (t : Touch) → lists self.now s t ≡ true →
            stands_for w.now t.step ≡ true → has stamps.new.items s ≡ true) }
    {
        if !may_stand(w, &self.latest.step) {
            return Ok(());
        }
        let range = range_of(&w.statement);
        let end = end_of(range);
        add_within(&self.places, range.offset, end, stamps)?;
        Ok(())
    }
}
