//! Run tests of waits as futures, through public calls alone, on the board of two batches of one queue that
//! signal one timeline, with 2 and then with 7. Expected values are worked out by hand.
#![tactic(auto)]

#[cfg(test)]
mod asked;
#[cfg(test)]
mod polls_tests;
#[cfg(test)]
mod pool_tests;
#[cfg(test)]
mod pools;
#[cfg(test)]
mod threads_tests;
#[cfg(test)]
mod waits;
#[cfg(test)]
mod wakes_tests;
