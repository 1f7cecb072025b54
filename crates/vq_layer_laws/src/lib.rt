//! Laws over whole runs of calls on a live layer.
#![tactic(auto)]

pub mod laws;
