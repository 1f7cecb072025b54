//! The programs of the actors, as lists of tasks.
mod batches;
mod host;
mod signals;
mod waits;

pub(crate) use batches::{ring_program, submit_program};
pub(crate) use host::host_program;
