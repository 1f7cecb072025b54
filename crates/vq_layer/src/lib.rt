//! The live layer: timelines, binary semaphores and queues of a device that learns its batches as they are submitted. A
//! batch is held back until all that it waits for is past or pending; then it is released with the points to wait for and
//! to signal. It waits for nobody and has no lock of its own.
#![tactic(auto)]

mod answers;
mod batch;
mod host;
mod layer;
mod merging;
mod naming;
mod opening;
mod queue;
mod signals;
mod stuck;
mod submitting;
mod undoing;
mod waits;

pub use answers::{
    Blocked, CloseFault, Kind, ResetFault, SetFault, Signal, SubmitFault, TakeBackFault, Wait,
    Wanted,
};
pub use batch::LiveBatch;
pub use host::MOST_REFS;
pub use layer::LiveLayer;
pub use queue::LiveQueue;
pub use submitting::MOST_WAITS;
