//! The top call, and what it does for a task that starts no thread.
#![tactic(auto)]

mod auditing;
mod ending;
mod origins;
mod outcome;
mod reading;
mod status;
mod task;
mod threadless;
mod top;

pub use status::Status;
pub use threadless::still;
pub use top::run;
pub use vq_generator::generate;
