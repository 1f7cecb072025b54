//! The actors of a plan: turn by turn they submit, release and run its batches, and do the host's steps. A
//! turn goes over an access, which may be a core whose state is told, or words that other threads change too.
//! The host also serves the submit actors of deferred queues, over a stage that lends an access to each.
#![tactic(auto)]

mod access;
mod actor;
mod asking;
mod company;
mod doing;
mod held;
pub mod laws;
mod looks;
mod makers;
mod moves;
mod needs;
mod play;
mod programs;
mod stage;
mod tasks;
mod tracker;

pub use access::{Access, Step};
pub use actor::Actor;
pub use company::{Company, queue_count};
pub use makers::{HostActor, RingActor, SubmitActor};
pub use stage::Stage;
pub use tracker::Tracker;
