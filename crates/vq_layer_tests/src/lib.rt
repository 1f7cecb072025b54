//! Run tests of the live layer, through public calls alone: batches that are held back, released and finished, binary
//! semaphores and fences. Expected values are worked out by hand.
#![tactic(auto)]

#[cfg(test)]
mod batch_tests;
