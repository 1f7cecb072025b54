//! Texts with blocks of host threads, compiled to scripts: a threaded queue for each thread, a batch for each step.
#![tactic(auto)]

mod block_lines;
mod block_words;
mod compiler;
mod fault;
mod hosts_reader;
mod joined;
mod origins;
mod pairs;
mod threads;

pub use compiler::{Compiled, compile};
pub use fault::HostsFault;
