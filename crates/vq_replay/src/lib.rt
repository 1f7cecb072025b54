//! Schedules: the turns that a script gives to its actors, or rounds of them, played over a core, and the text of
//! what they came to.
#![tactic(auto)]

mod digits;
mod fair;
mod fair_play;
mod lines;
mod pieces;
mod played;
mod rests;
mod roster;
mod schedule;
mod spelled;
mod text;
mod trace;
mod words;
mod writer;

pub use fair::{rounds, rounds_text};
pub use played::Played;
pub use schedule::{Replayed, replay};
pub use text::{replay_text, trace_text};
pub use trace::push_turns;
