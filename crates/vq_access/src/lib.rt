//! An access over the words of a board: an actor goes on by what its own pass sees and does there.
#![tactic(auto)]

mod answering;
mod asking;
mod behind;
mod board_access;
mod commands;
mod finding;
mod gathering;
mod grounds;
mod guarded;
mod jobs;
mod last;
mod lists;
mod looks;
mod points;
mod post;
mod refused;
mod seats;
mod takings;
mod turns;

pub use asking::{Lists, Trying, Waiting};
pub use board_access::BoardAccess;
pub use grounds::Grounds;
pub use last::Last;
pub use post::Post;
pub use refused::Refused;
pub use seats::Seats;
pub use turns::turn_at;
