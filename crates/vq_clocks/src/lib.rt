//! Vector clocks of a plan: which job happens before which, and before which command, and which signals
//! are sure to be made before a job ends.
#![tactic(auto)]

mod clocked;
mod clocks;
mod complete_run;

pub use clocked::Clocked;
