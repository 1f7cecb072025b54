//! The clocks of lines that release something.
ghost use Rattle.std.specs.Prelude.{◌≡◌, ◌<◌, ◌≤◌, ◌++◌, ◌∷◌, [], ℕ, IfOk, IsTrue, List, OnOk, false, true};
ghost use Rattle.vq_ground.specs.Lists.{has};
ghost use Rattle.vq_capture_clocks.specs.Levels.{AreInOrder};
ghost use Rattle.vq_capture_check.specs.Alike.{TellsAsked};
ghost use Rattle.vq_capture_check.specs.Clocks.{no_clock, says, join, take_lines, with_line};
ghost use Rattle.vq_capture_check.specs.Least.{least_in};
ghost use Rattle.vq_capture_check.specs.Watching.{take_handed};
ghost use Rattle.vq_capture_check.specs.Watches.{kept_of};

use crate::kept_lines::KeptLines;
use std::alloc::{AllocError, Global};
use vq_capture::statement::Statement;
use vq_capture_clocks::clocks::{Block, join};
use vq_capture_clocks::least::LeastLines;
use vq_capture_clocks::levels::{are_same, is_among, level};
use vq_capture_clocks::pruning::clear;

/// Keeps the clock of a line. The error is want of memory.
#[tactic(auto, using(crate::proofs::Lists::kept_more))]
pub fn keep(
    alloc: Global,
    lines: &mut Vec<KeptLines>,
    line: u64,
    clock: &[Block],
) -> Result<(), AllocError>
    ensures { OnOk result
        (kept_of lines.new.items ≡ with_line (kept_of lines.old.items) line (says clock.now)) }
{
    let clock = Vec::from_slice(alloc, clock)?;
    let only = vec![in alloc; line]?;
    lines.push(KeptLines { lines: only, clock })?;
    Ok(())
}

/// Takes what the clock of a line says. The error is want of memory.
#[tactic(auto, using(crate::proofs::Lists::kept_here, crate::proofs::Lists::kept_above, vq_capture_clocks::proofs::Cited::join_nothing))]
pub fn take_line(lines: &[KeptLines], clock: &mut Vec<Block>, line: u64) -> Result<(), AllocError>
    ensures { OnOk result (says clock.new.items ≡ join (says clock.old.items) (kept_of lines.now line)) }
{
    let mut left = lines.len();
    while 0 < left {
        left -= 1;
        if is_among(&lines[left].lines, line) {
            return join(clock, &lines[left].clock);
        }
    }
    Ok(())
}

/// Takes what the clocks of some lines say. The error is want of memory.
pub fn take_lines(
    lines: &[KeptLines],
    clock: &mut Vec<Block>,
    released: &[u64],
) -> Result<(), AllocError>
    ensures { OnOk result
        (says clock.new.items ≡ take_lines (kept_of lines.now) (says clock.old.items) released.now) }
{
    for line in released {
        take_line(lines, clock, *line)?;
    }
    Ok(())
}

/// Takes what the clock of the line says at which a batch was handed over, if this submits it. The error is want of
/// memory.
pub fn take_handed(
    lines: &[KeptLines],
    clock: &mut Vec<Block>,
    said: &Statement,
) -> Result<(), AllocError>
    ensures { OnOk result
        (says clock.new.items ≡ take_handed (kept_of lines.now) (says clock.old.items) said.now) }
{
    match said {
        Statement::SubmitHanded { queue: _, handed } => take_line(lines, clock, *handed),
        _ => Ok(()),
    }
}

/// Whether all of some lines, which are in order, are below one.
fn are_behind(lines: &[u64], highest: u64) -> bool
    requires { AreInOrder lines.now }
    ensures { IsTrue result → (m : ℕ) → has lines.now m ≡ true → highest < m }
{
    match lines.first() {
        Some(first) => highest < *first,
        None => true,
    }
}

/// The last of a line and of some, which are in order.
fn last_from(lines: &[u64], highest: u64) -> u64
    requires { AreInOrder lines.now }
    ensures at_least { highest ≤ result }
    ensures last { (m : ℕ) → result < m → has lines.now m ≡ false }
{
    match lines.last() {
        Some(last) => highest.max(*last),
        None => highest,
    }
}

/// Whether lines stand behind others, and have the same clock.
fn is_next(before: &KeptLines, kept: &KeptLines) -> bool
    ensures order { IsTrue result → AreInOrder (before.now.lines.items ++ kept.now.lines.items) }
    ensures clock { IsTrue result → before.now.clock.items ≡ kept.now.clock.items }
{
    match (before.lines.last(), kept.lines.first()) {
        (Some(last), Some(first)) => *last <= *first && are_same(&before.clock, &kept.clock),
        _ => false,
    }
}

/// Puts lines behind the last ones, if these have the same clock; else they stand by themselves.
fn put(lines: &mut Vec<KeptLines>, kept: KeptLines) -> Result<(), AllocError>
    ensures { OnOk result ((m : ℕ) → kept_of lines.new.items m ≡ kept_of (lines.old.items ++ kept ∷ []) m) }
{
    let Some(last) = lines.pop() else {
        lines.push(kept)?;
        return Ok(());
    };
    if is_next(&last, &kept) {
        let mut last = last;
        last.lines.extend_from_slice(&kept.lines)?;
        lines.push(last)?;
        return Ok(());
    }
    lines.push(last)?;
    lines.push(kept)?;
    Ok(())
}

/// Adds lines to those that are kept on, which all stand up to a highest one, unless their clock says nothing.
fn keep_on(
    lines: &mut Vec<KeptLines>,
    highest: u64,
    kept: KeptLines,
    least: &LeastLines,
    touched: &[u64],
    next: u64,
) -> Result<u64, AllocError>
    requires order { AreInOrder touched.now }
    requires highest { (m : ℕ) → highest < m → kept_of lines.old.items m ≡ no_clock }
    ensures above { IfOk result (λ up. (m : ℕ) → up < m → kept_of lines.new.items m ≡ no_clock) }
    ensures same { OnOk result ((before : List KeptLines) →
        ((m : ℕ) → TellsAsked (least_in least.now) touched.now next (kept_of lines.old.items m) (kept_of before m)) →
        (m : ℕ) → TellsAsked (least_in least.now) touched.now next (kept_of lines.new.items m)
        (kept_of (before ++ kept ∷ []) m)) }
{
    let mut kept = kept;
    clear(&mut kept.clock, least);
    if kept.clock.is_empty() && are_behind(&kept.lines, highest) {
        return Ok(highest);
    }
    level(&mut kept.clock, touched, next);
    let up = last_from(&kept.lines, highest);
    put(lines, kept)?;
    Ok(up)
}

/// The lines that may release another one, but what lines from a number on ask of them, and those of the accesses that
/// are kept. The error is want of memory.
pub fn pruned(
    alloc: Global,
    lines: Vec<KeptLines>,
    least: &LeastLines,
    touched: &[u64],
    next: u64,
) -> Result<Vec<KeptLines>, AllocError>
    requires { AreInOrder touched.now }
    ensures { IfOk result (λ now. (m : ℕ) →
        TellsAsked (least_in least.now) touched.now next (kept_of now.items m) (kept_of lines.items m)) }
{
    let mut now = Vec::new(alloc);
    let mut highest = 0;
    for kept in lines {
        highest = keep_on(&mut now, highest, kept, least, touched, next)?;
    }
    Ok(now)
}

/// How many blocks the clocks of lines have, and one for each line.
pub fn blocks_in(lines: &[KeptLines]) -> usize {
    let mut count = lines.len();
    for kept in lines {
        count = count.saturating_add(kept.clock.len());
    }
    count
}
