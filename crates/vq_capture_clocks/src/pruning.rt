//! Clocks without what no line to come asks of them.
ghost use Rattle.std.specs.Prelude.{◌≡◌, ◌≤◌, ◌<◌, ℕ, length};
ghost use Rattle.std.specs.List.{slice_index_or};
ghost use Rattle.vq_capture_clocks.specs.Blocks.{block_says, is_nothing, line_at, says};
ghost use Rattle.vq_capture_clocks.specs.Clocks.{TellsAs};
ghost use Rattle.vq_capture_clocks.specs.Least.{least_in};

use crate::clocks::Block;
use crate::least::LeastLines;

/// Leaves out a line of a place, unless it is above one.
fn clear_at(lines: &mut [u64], place: usize, line: u64)
    requires { place < length lines.old }
    ensures same { (least : ℕ → ℕ) → line ≡ least place → TellsAs least (line_at lines.new) (line_at lines.old) }
    ensures wide { length lines.new ≡ length lines.old }
{
    if lines[place] <= line {
        lines[place] = 0;
    }
}

/// Leaves out the lines that aren't above others.
fn clear_lines(lines: &mut [u64], least: &[u64])
    requires { length least.now ≡ length lines.old }
    ensures { (next : ℕ) → TellsAs (λ p. slice_index_or least.now p next) (line_at lines.new) (line_at lines.old) }
{
    let mut place = 0;
    while place < lines.len() {
        clear_at(lines, place, least[place]);
        place += 1;
    }
}

/// Leaves out the lines that aren't above one.
fn clear_all(lines: &mut [u64], next: u64)
    ensures { TellsAs (λ p. next) (line_at lines.new) (line_at lines.old) }
{
    let mut place = 0;
    while place < lines.len() {
        clear_at(lines, place, next);
        place += 1;
    }
}

impl Block {
    fn clear(&mut self, least: &LeastLines)
        ensures { TellsAs (least_in least.now) (block_says self.new) (block_says self.old) }
    {
        match least.blocks.get(&self.number) {
            Some(block) => clear_lines(&mut self.lines, &block.lines),
            None => clear_all(&mut self.lines, least.next),
        }
    }

    fn is_nothing(&self) -> bool
        ensures { result ≡ is_nothing self.now }
    {
        for line in &self.lines {
            if *line != 0 {
                return false;
            }
        }
        true
    }
}

fn clear_block(clock: &mut Vec<Block>, at: usize, least: &LeastLines)
    requires { at < length clock.old.items }
    ensures same { TellsAs (least_in least.now) (says clock.new.items) (says clock.old.items) }
    ensures wide { length clock.new.items ≡ length clock.old.items }
{
    clock[at].clear(least);
}

fn clear_blocks(clock: &mut Vec<Block>, least: &LeastLines)
    ensures { TellsAs (least_in least.now) (says clock.new.items) (says clock.old.items) }
{
    let mut at = 0;
    while at < clock.len() {
        clear_block(clock, at, least);
        at += 1;
    }
}

/// Forgets the blocks that say nothing.
fn drop_nothing(clock: &mut Vec<Block>)
    ensures { says clock.new.items ≡ says clock.old.items }
{
    clock.retain(|block| !block.is_nothing());
}

/// Leaves out what a clock says of lanes, unless it is above the least line that the lane is asked for.
pub fn clear(clock: &mut Vec<Block>, least: &LeastLines)
    ensures { TellsAs (least_in least.now) (says clock.new.items) (says clock.old.items) }
{
    clear_blocks(clock, least);
    drop_nothing(clock);
    clock.shrink_to_fit();
}
