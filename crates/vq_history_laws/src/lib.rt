//! Laws over histories of events: what each world of a history keeps, and how long a history can be.
#![tactic(auto)]

pub mod laws;
