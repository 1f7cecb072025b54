//! Waits for values of a board's chains, as futures: for all or any of some pairs, and for each of them as it is
//! reached. A poll registers at the bell of a chain and then reads the chain; it takes no memory and no lock of a
//! timeline. Who makes a signal rings the bell of its chain after the step. That a wake arrives isn't claimed.
#![tactic(auto)]

mod arrivals;
mod awaited;
mod bell;
pub mod laws;
mod lent;
mod owned;
mod pairs;
mod seats;
mod wait;
mod watched;

pub use arrivals::Arrivals;
pub use bell::Bell;
pub use lent::WaitPairs;
pub use owned::WaitOwned;
pub use pairs::{Met, Pair, WaitMode};
pub use watched::WatchedBoard;
