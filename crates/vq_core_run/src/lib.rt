//! All actors of a plan over one core, turn by turn: the access round a core, the places of the actors, and a run of a
//! lawful plan whose turns are taken from outside, one at a time, by whoever has it. No turn of such a run waits or takes
//! memory.
#![tactic(auto)]

mod core_access;
mod core_stage;
mod drive;
mod looks;
mod numbers;
mod troupe;

pub use drive::Drive;
pub use numbers::{actor_count, actor_numbered};
pub use troupe::Troupe;
