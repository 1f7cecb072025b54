//! Run tests of turns of actors over a board and its timelines, through public calls alone: schedules of turns, each of an
//! actor's own room, with what each comes to. Expected values are worked out by hand.
#![tactic(auto)]

#[cfg(test)]
mod apart_tests;
#[cfg(test)]
mod events;
#[cfg(test)]
mod player_tests;
#[cfg(test)]
mod rooms;
#[cfg(test)]
mod scene;
#[cfg(test)]
mod share_tests;
#[cfg(test)]
mod turns;
#[cfg(test)]
mod turns_tests;
