//! Run tests of the live timeline, of locks with a key, and of live timelines under theirs, through public calls alone: two
//! threads lose no change, and who waits in one is woken by another. Expected values are worked out by hand.
#![tactic(auto)]

#[cfg(test)]
mod guarded;
#[cfg(test)]
mod lock_tests;
#[cfg(test)]
mod order_tests;
#[cfg(test)]
mod point_tests;
#[cfg(test)]
mod scene;
#[cfg(test)]
mod steps;
#[cfg(test)]
mod waits_tests;
