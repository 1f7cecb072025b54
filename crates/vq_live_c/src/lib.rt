//! The live timeline for callers in C: `vq_live.h` has the declarations.
#![tactic(auto)]

mod calls;
mod codes;
mod exports;
mod handle;
mod reply;
mod rows;

pub use exports::{
    vq_live_cancel, vq_live_close, vq_live_complete, vq_live_find, vq_live_first, vq_live_install,
    vq_live_least_taken, vq_live_open, vq_live_refer, vq_live_signal, vq_live_take, vq_live_unref,
    vq_live_value, vq_live_version,
};
pub use handle::Handle;
pub use rows::GivenRow;
