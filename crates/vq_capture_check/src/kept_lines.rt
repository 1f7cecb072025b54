//! Lines that are kept, with their clock.
ghost use Rattle.vq_capture_clocks.specs.Levels.{AreInOrder};

use vq_capture_clocks::clocks::Block;

/// Lines that may release others, in their order, which have one clock.
#[derive(Drop)]
pub struct KeptLines {
    pub lines: Vec<u64>,
    pub clock: Vec<Block>,
    ghost order: { AreInOrder lines.items },
}
