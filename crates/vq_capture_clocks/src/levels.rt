//! Clocks whose lines are brought down to those that are asked, so that clocks which tell the same are the same.
ghost use Rattle.std.specs.Prelude.{◌≡◌, ◌≤◌, ◌<◌, ◌==◌, ℕ, IsTrue, length, nat_lt, true};
ghost use Rattle.std.specs.List.{slice_index_or};
ghost use Rattle.vq_ground.specs.Lists.{has};
ghost use Rattle.vq_capture_clocks.specs.Blocks.{line_at, says};
ghost use Rattle.vq_capture_clocks.specs.Levels.{AreInOrder, TellsOf, is_listed};

use crate::clocks::Block;

/// How many of some lines, which are in order, are above a line.
fn count_above(lines: &[u64], line: u64) -> usize
    requires { AreInOrder lines.now }
    ensures within { result ≤ length lines.now }
    ensures above { (k d : ℕ) → k < result → slice_index_or lines.now k d < line }
    ensures behind { (k d : ℕ) → result ≤ k → k < length lines.now → line ≤ slice_index_or lines.now k d }
{
    let mut low = 0;
    let mut high = lines.len();
    while low < high {
        let middle = low + (high - low) / 2;
        if lines[middle] < line {
            low = middle + 1;
        } else {
            high = middle;
        }
    }
    low
}

/// Whether a line is one of some, which are in order.
pub fn is_among(lines: &[u64], line: u64) -> bool
    requires { AreInOrder lines.now }
    ensures { result ≡ has lines.now line }
{
    let count = count_above(lines, line);
    count < lines.len() && lines[count] == line
}

/// The line right behind the last of some that is above a line; 0 where none is.
fn level_of(lines: &[u64], next: u64, line: u64) -> u64
    requires { AreInOrder lines.now }
    ensures { (l : ℕ) → is_listed lines.now next l ≡ true → nat_lt l result ≡ nat_lt l line }
{
    if next < line {
        return line;
    }
    let count = count_above(lines, line);
    if count == 0 {
        return 0;
    }
    match lines[count - 1].checked_add(1) {
        Some(level) => level,
        None => line,
    }
}

fn level_at(places: &mut [u64], place: usize, lines: &[u64], next: u64)
    requires order { AreInOrder lines.now }
    requires place { place < length places.old }
    ensures same { TellsOf lines.now next (line_at places.new) (line_at places.old) }
    ensures wide { length places.new ≡ length places.old }
{
    places[place] = level_of(lines, next, places[place]);
}

/// Brings the lines of places down.
fn level_places(places: &mut [u64], lines: &[u64], next: u64)
    requires { AreInOrder lines.now }
    ensures { TellsOf lines.now next (line_at places.new) (line_at places.old) }
{
    let mut place = 0;
    while place < places.len() {
        level_at(places, place, lines, next);
        place += 1;
    }
}

fn level_block(clock: &mut Vec<Block>, at: usize, lines: &[u64], next: u64)
    requires order { AreInOrder lines.now }
    requires at { at < length clock.old.items }
    ensures same { TellsOf lines.now next (says clock.new.items) (says clock.old.items) }
    ensures wide { length clock.new.items ≡ length clock.old.items }
{
    level_places(&mut clock[at].lines, lines, next);
}

/// Brings each line that a clock says down to the one behind the last of some that is above it. For these lines, which
/// are in order, and for those from a number on it tells the same.
pub fn level(clock: &mut Vec<Block>, lines: &[u64], next: u64)
    requires { AreInOrder lines.now }
    ensures { TellsOf lines.now next (says clock.new.items) (says clock.old.items) }
{
    let mut at = 0;
    while at < clock.len() {
        level_block(clock, at, lines, next);
        at += 1;
    }
}

/// Whether two clocks have the same blocks.
pub fn are_same(first: &[Block], second: &[Block]) -> bool
    ensures { IsTrue result → first.now ≡ second.now }
{
    first == second
}
