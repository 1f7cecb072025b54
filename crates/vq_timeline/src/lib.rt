//! The points of a timeline under a lock of its own: which operation has which point, which are bound and
//! completed, and the pass that makes their steps on the board. Two timelines wait for each other nowhere.
//! Nothing here but the lock can wait, and a try of it can't; nothing but the opening takes memory.
#![tactic(auto)]

mod collecting;
mod giving;
mod guarded;
mod locked;
mod opening;
mod parts;
mod reading;
mod timeline;
mod trying;

pub use parts::{BindFault, Collected, Home, Shelf};
pub use timeline::{LockedTimeline, ShelfGuard};
