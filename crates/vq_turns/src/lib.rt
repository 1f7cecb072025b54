//! What the actors do, turn by turn, as data: the tasks of their programs, what they look for, and what a
//! turn comes to. The definitions of their programs and turns stand in specs.
#![tactic(auto)]

pub mod look;
pub mod needs;
pub mod outcome;
pub mod task;
