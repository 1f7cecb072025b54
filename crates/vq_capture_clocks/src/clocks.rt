//! Clocks, which say of each lane the line above which all that gives that lane is before something.
ghost use Rattle.std.specs.Prelude.{◌≡◌, ◌≤◌, ◌<◌, ◌/◌, ◌%◌, ◌==◌, if◌then◌else◌, IsTrue, OnOk, length, ℕ};
ghost use Rattle.vq_capture_clocks.specs.Blocks.{block_says, line_at, only, raised_in, says};
ghost use Rattle.vq_capture_clocks.specs.Clocks.{IsBelow, join, later, raise};

use crate::lane_sets::has_lane;
use std::alloc::AllocError;

/// How many lanes a block has.
const LANES: usize = 15;

/// What a clock says of the lanes of a number.
#[derive(Clone, Copy, PartialEq)]
pub struct Block {
    pub number: usize,
    pub lines: [u64; 15],
}

fn later(first: u64, second: u64) -> u64
    ensures { result ≡ later first second }
{
    if first < second { second } else { first }
}

/// What a block says of a lane, by its number and its place there.
fn line_of(block: &Block, number: usize, place: usize) -> u64
    requires { place < 15 }
    ensures { result ≡ (if number == block.now.number then line_at block.now.lines place else 0) }
{
    if block.number == number {
        block.lines[place]
    } else {
        0
    }
}

/// What a clock says of the lane of a place of a number.
pub fn said_in(clock: &[Block], number: usize, place: usize) -> u64
    requires { place < 15 }
    ensures { (lane : ℕ) → lane / 15 ≡ number → lane % 15 ≡ place → result ≡ says clock.now lane }
{
    let mut line = 0;
    for block in clock {
        line = later(line, line_of(block, number, place));
    }
    line
}

/// Says a line of a place, or a later one.
#[tactic(auto, using(crate::proofs::Joined::line_set, crate::proofs::Joined::line_kept))]
fn raise_at(lines: &mut [u64], place: usize, line: u64)
    requires { place < length lines.old }
    ensures raised { line_at lines.new ≡ raise (line_at lines.old) place line }
    ensures wide { length lines.new ≡ length lines.old }
{
    if lines[place] < line {
        lines[place] = line;
    }
}

/// Says what other lines say, where that is later. There are as many places.
fn join_lines(lines: &mut [u64], other: &[u64])
    requires { length other.now ≤ length lines.old }
    ensures { line_at lines.new ≡ join (line_at lines.old) (line_at other.now) }
{
    let mut place = 0;
    while place < other.len() {
        raise_at(lines, place, other[place]);
        place += 1;
    }
}

/// The first place from one on at which a block of a number may stand.
fn place_from(clock: &[Block], from: usize, number: usize) -> usize
    ensures { result ≤ length clock.now }
{
    let mut place = from;
    while place < clock.len() && clock[place].number < number {
        place += 1;
    }
    if place < clock.len() {
        place
    } else {
        clock.len()
    }
}

/// Says what a block says, where that is later. The result is the place of a block of its number.
fn join_block(clock: &mut Vec<Block>, from: usize, block: &Block) -> Result<usize, AllocError>
    ensures { OnOk result (says clock.new.items ≡ join (says clock.old.items) (block_says block.now)) }
{
    let place = place_from(clock, from, block.number);
    if place < clock.len() {
        let mut there = clock[place];
        if there.number == block.number {
            join_lines(&mut there.lines, &block.lines);
            clock[place] = there;
            return Ok(place);
        }
    }
    clock.insert(place, *block)?;
    Ok(place)
}

/// The same if a test holds.
fn raise_if(lines: &mut [u64], test: bool, place: usize, line: u64)
    requires { place < length lines.old }
    ensures raised { line_at lines.new ≡
        (if test then raise (line_at lines.old) place line else line_at lines.old) }
    ensures wide { length lines.new ≡ length lines.old }
{
    if test {
        raise_at(lines, place, line);
    }
}

/// Says a line of the places of a set, or a later one.
fn raise_places(lines: &mut [u64], set: u16, line: u64)
    requires { length lines.old ≡ 15 }
    ensures { line_at lines.new ≡ raised_in (line_at lines.old) set line 15 }
{
    let mut place = 0;
    while place < lines.len() {
        raise_if(lines, has_lane(set, place), place, line);
        place += 1;
    }
}

/// A block that says nothing.
fn nothing_of(number: usize) -> Block
    ensures number { result.number ≡ number }
    ensures lines { (p : ℕ) → line_at result.lines p ≡ 0 }
{
    Block {
        number,
        lines: [0; LANES],
    }
}

/// Says a line of the lanes of a number that are in a set, or a later one. The error is want of memory.
pub fn raise(clock: &mut Vec<Block>, number: usize, set: u16, line: u64) -> Result<(), AllocError>
    ensures { OnOk result (says clock.new.items ≡ join (says clock.old.items) (only number set line)) }
{
    let place = place_from(clock, 0, number);
    if place < clock.len() {
        let mut there = clock[place];
        if there.number == number {
            raise_places(&mut there.lines, set, line);
            clock[place] = there;
            return Ok(());
        }
    }
    let mut block = nothing_of(number);
    raise_places(&mut block.lines, set, line);
    clock.insert(place, block)?;
    Ok(())
}

/// Says what another clock says, where that is later. The error is want of memory.
pub fn join(clock: &mut Vec<Block>, other: &[Block]) -> Result<(), AllocError>
    ensures { OnOk result (says clock.new.items ≡ join (says clock.old.items) (says other.now)) }
{
    if clock.is_empty() {
        clock.extend_from_slice(other)?;
        return Ok(());
    }
    let mut place = 0;
    for block in other {
        place = join_block(clock, place, block)?;
    }
    Ok(())
}

/// Whether lines say at most what others do.
fn lines_within(lines: &[u64], other: &[u64]) -> bool
    requires { length lines.now ≤ length other.now }
    ensures { IsTrue result → IsBelow (line_at lines.now) (line_at other.now) }
{
    let mut place = 0;
    while place < lines.len() {
        if lines[place] > other[place] {
            return false;
        }
        place += 1;
    }
    true
}

/// Whether a block says at most what one of a clock does.
fn block_within(block: &Block, clock: &[Block]) -> bool
    ensures { IsTrue result → IsBelow (block_says block.now) (says clock.now) }
{
    let place = place_from(clock, 0, block.number);
    if place < clock.len() {
        let there = &clock[place];
        if there.number == block.number {
            return lines_within(&block.lines, &there.lines);
        }
    }
    false
}

/// Whether a clock says at most what another one does. It may say no where it does.
pub fn is_within(clock: &[Block], other: &[Block]) -> bool
    ensures { IsTrue result → IsBelow (says clock.now) (says other.now) }
{
    for block in clock {
        if !block_within(block, other) {
            return false;
        }
    }
    true
}
