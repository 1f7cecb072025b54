//! For each lane the least line that it is asked for.
ghost use Rattle.std.specs.Prelude.{◌≡◌, ◌<◌, ℕ, IfOk, OnOk, length};
ghost use Rattle.std.specs.List.{slice_index_or};
ghost use Rattle.vq_capture_clocks.specs.Least.{least_in, lowered};

use std::alloc::{AllocError, Global};
use std::collections::BTreeMap;

/// The least lines that the lanes of a number are asked for.
#[derive(Clone, Copy)]
pub struct LeastBlock {
    pub lines: [u64; 15],
}

/// The least lines that lanes are asked for. A lane that no block has is asked for the next line.
#[derive(Drop)]
pub struct LeastLines {
    pub next: u64,
    pub blocks: BTreeMap<usize, LeastBlock>,
}

fn lower_at(lines: &mut [u64], place: usize, line: u64)
    requires { place < length lines.old }
    ensures { (next : ℕ) → (p : ℕ) → slice_index_or lines.new p next ≡
        lowered (λ q. slice_index_or lines.old q next) place line p }
{
    if line < lines[place] {
        lines[place] = line;
    }
}

impl LeastBlock {
    fn lower(&mut self, place: usize, line: u64)
        requires { place < 15 }
        ensures { (next : ℕ) → (p : ℕ) → slice_index_or self.new.lines p next ≡
            lowered (λ q. slice_index_or self.old.lines q next) place line p }
    {
        lower_at(&mut self.lines, place, line);
    }

    fn first(next: u64, place: usize, line: u64) -> LeastBlock
        requires { place < 15 }
        ensures { (p : ℕ) → slice_index_or result.lines p next ≡ lowered (λ q. next) place line p }
    {
        let mut block = LeastBlock { lines: [next; 15] };
        block.lower(place, line);
        block
    }
}

impl LeastLines {
    /// Where each lane is asked for the next line alone.
    pub fn new(alloc: Global, next: u64) -> LeastLines
        ensures { least_in result ≡ (λ k. next) }
    {
        LeastLines {
            next,
            blocks: BTreeMap::new(alloc),
        }
    }

    /// Says a line of a lane, or an earlier one. The error is want of memory.
    pub fn lower(&mut self, lane: usize, line: u64) -> Result<(), AllocError>
        ensures { OnOk result ((k : ℕ) → least_in self.new k ≡ lowered (least_in self.old) lane line k) }
    {
        let number = lane / 15;
        if let Some(block) = self.blocks.get_mut(&number) {
            block.lower(lane % 15, line);
            return Ok(());
        }
        let block = LeastBlock::first(self.next, lane % 15, line);
        self.blocks.insert(number, block)?;
        Ok(())
    }
}
