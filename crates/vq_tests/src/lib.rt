//! Run tests of the library crates, through their public calls alone. Expected values are worked out
//! by hand.
#![tactic(auto)]

#[cfg(test)]
mod answer_tests;
#[cfg(test)]
mod generator_tests;
#[cfg(test)]
mod lists_tests;
#[cfg(test)]
mod order_tests;
#[cfg(test)]
mod plan_tests;
#[cfg(test)]
mod point_tests;
#[cfg(test)]
mod port_tests;
#[cfg(test)]
mod script_tests;
#[cfg(test)]
mod text_room_tests;
#[cfg(test)]
mod timeline_tests;
#[cfg(test)]
mod transfer_tests;
#[cfg(test)]
mod words_tests;
