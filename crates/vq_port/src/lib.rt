//! Where bytes come from and where they go: a source is read, a sink is written, and each counts its faults.
#![tactic(auto)]

mod calls;
mod failed;
mod memory;
mod read;
mod rest;
mod sink;
mod source;
mod standard;
mod steady;
mod store;
mod write;

pub use failed::Failed;
pub use memory::{MemorySink, MemorySource};
pub use read::{ReadFault, read_whole};
pub use sink::Sink;
pub use source::Source;
pub use standard::{StdSink, StdSource};
pub use steady::{SteadySink, SteadySource};
pub use write::write_whole;
