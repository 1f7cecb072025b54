//! A lock that is made for a key and keeps content that fits the key. Who takes it gets content of
//! which that is known, and gives such content back. Two locks are free of one another.
#![tactic(auto)]

mod calls;
mod content;
mod lock;
mod parts;

pub use lock::{Guard, KeyedLock};
pub use parts::Fits;
