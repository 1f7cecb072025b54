//! The order that a plan puts on its jobs, and what a plan is refused for.
#![tactic(auto)]

mod busy;
mod checking;
mod lines;
mod ordered;
mod pending;
mod races;
mod searching;
mod unordered;
mod unreachable;

pub use checking::check;
pub use ordered::Ordered;
pub use vq_model::plan::OrderFault;
