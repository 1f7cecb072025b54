//! What a run over a board needs before its first turn, the room in which each actor takes its turns there, the turns of
//! the host with the answers that they give, and the look at the end: for whoever takes the turns, by threads of its own
//! or one by one.
//!
//! A room keeps what an access over the board is lent for one turn, and takes it back as the turn left it.
#![tactic(auto)]

mod content;
mod crew;
mod lead;
mod looks;
mod making;
mod room;
mod room_turns;
mod stage;
mod timelines;
mod turns;
mod workers;

pub use crew::Crew;
pub use lead::Lead;
pub use looks::sees_finished;
pub use room::AccessRoom;
pub use turns::{host_turn, line_of};
