//! A live timeline under a lock of its own, and waiting for its values: for one, for all of several, or
//! for any of several, with no spinning.
#![tactic(auto)]

mod asking;
mod bell;
mod calls;
mod counting;
mod gauge;
mod keeping;
mod kept;
pub mod laws;
mod locked;
mod locking;
mod reading;
mod ringing;
mod rule;
mod telling;
mod waiting;
mod waits;

pub use bell::Bell;
pub use gauge::Reached;
pub use locked::{LiveGuard, LockedLive};
pub use waiting::Wanted;
pub use waits::wait_all;
