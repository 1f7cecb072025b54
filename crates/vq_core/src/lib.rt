//! All that a run of a plan has come to, event by event, with the history: which event may come next,
//! and what it leaves. One place keeps every guard; who makes events, in which thread and under which
//! lock, is left to others.
#![tactic(auto)]

mod answer_room;
mod answers;
mod asking;
mod batches;
mod events;
mod guards;
mod holding;
mod needs;
mod progress;
mod state;

pub use answer_room::AnswerRoom;
pub use state::{Core, CoreParts};
