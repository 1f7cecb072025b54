//! The bytes of buffers, and the transfer commands that change them.
#![tactic(auto)]

pub mod buffers;
mod writes;

pub use buffers::Buffers;
