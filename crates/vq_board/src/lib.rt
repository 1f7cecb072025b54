//! The board: jobs, signal operations and points, the log of commands and the turn over the buffers, as
//! words that actors change in single atomic steps. Each actor steps with a pass, from its own thread.
#![tactic(auto)]

mod answers;
mod closing;
mod copies;
mod dealing;
mod jobs;
mod memory;
mod notes;
mod opening;
mod ops;
mod parts;
mod plays;
mod points;
mod words;

pub use parts::{Board, Closed, InUse, Lost, MemoryTurn, Pass, Passes, Referred, Unbound};
pub use vq_board_laws::view::{JobState, OpState, Role};
