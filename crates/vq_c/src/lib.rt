//! The check of a script, runs of lawful ones, and the actors of runs that threads share, for callers in C: `vq.h` has
//! the declarations.
#![tactic(auto)]

mod answers;
mod bytes;
mod calls;
mod exports;
mod handle;
mod looks;
mod object;
mod open_exports;
mod opening;
mod run_exports;
mod turns;

pub use exports::{Version, vq_check, vq_explain, vq_version};
pub use handle::Handle;
pub use object::Object;
pub use open_exports::{vq_close, vq_open, vq_plan, vq_share};
pub use run_exports::{
    vq_actors, vq_answers, vq_bytes, vq_finished, vq_line, vq_op, vq_turn, vq_turn_of,
};
