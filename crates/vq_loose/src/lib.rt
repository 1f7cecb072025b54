//! A box with its pointer in sight, for who keeps the pointer where a box can't stand.
#![tactic(auto)]

mod loose;
mod slot;

pub use loose::Loose;
pub use slot::Slot;
