//! The live layer for callers in C: `vq_layer.h` has the declarations.
#![tactic(auto)]

mod answer;
mod codes;
mod exports;
mod handle;
mod host;
mod host_exports;
mod opening;
mod queue_exports;
mod queues;
mod reading;
mod reading_exports;
mod reply;
mod telling;

pub use answer::{Answer, PointRow};
pub use exports::{
    vq_layer_close, vq_layer_close_timeline, vq_layer_open, vq_layer_open_binary,
    vq_layer_open_queue, vq_layer_open_timeline, vq_layer_version,
};
pub use handle::Handle;
pub use host_exports::{
    vq_layer_complete, vq_layer_find, vq_layer_first, vq_layer_pending_value, vq_layer_refer,
    vq_layer_reset, vq_layer_signal, vq_layer_unref, vq_layer_untaken, vq_layer_value,
};
pub use queue_exports::{
    vq_layer_blocked, vq_layer_finish, vq_layer_next, vq_layer_release, vq_layer_stuck,
    vq_layer_submit, vq_layer_take_back,
};
pub use reading_exports::{
    vq_layer_batches, vq_layer_released, vq_layer_signals, vq_layer_token, vq_layer_waits,
};
