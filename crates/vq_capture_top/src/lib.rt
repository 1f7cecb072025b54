//! The top calls of the captures' checker, whose contracts speak of the definition alone.
#![tactic(auto)]

mod memory_top;
mod top;

pub use memory_top::judge_memory;
pub use top::judge;
