//! The script that the program makes itself.
#![tactic(auto)]

mod declarations;
pub mod laws;
mod rounds;
mod script;

pub use script::generate;
