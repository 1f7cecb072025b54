//! The payload of a chain, as the caller's own pass of the board finds it. A chain's operations and their
//! values are kept beside what others change under a lock, and these calls take no lock: they look at the
//! board's words.
#![tactic(auto)]

mod chain;
mod finds;
mod reads;

pub use chain::Chain;
