//! Runs of a lawful plan by threads, over the words of a board: each ring and each submitting thread has one of its
//! own, and two of them meet only where the plan makes them meet.
#![tactic(auto)]

mod actors;
mod bells;
mod berth;
mod berths;
mod common;
mod duty;
mod gate;
mod lead;
mod looks;
mod opened;
mod opening;
mod progress;
mod report;
mod rounds;
mod run;
mod threads;

pub use gate::{Gate, OpenGate};
pub use opened::Opened;
pub use report::Report;
pub use run::execute;
