//! Run tests of the board through its public calls alone, in one thread and in several. Expected values
//! are worked out by hand.
#![tactic(auto)]

#[cfg(test)]
mod answers_tests;
#[cfg(test)]
mod contention_tests;
#[cfg(test)]
mod points_tests;
#[cfg(test)]
mod references_tests;
#[cfg(test)]
mod waits_tests;
