//! What the steps of a capture leave for its later lines, by what was declared: what its declaration said, and the
//! lines that release it. It grows with the names that were declared, and with the signals that raised a timeline or
//! weren't waited for; the steps themselves aren't kept.
//!
//! Source: this project's own.
#![tactic(auto)]

mod kept;
mod maps;
mod past_steps;
mod releasing;
mod rise;
mod rises;
mod things;

pub use things::Things;
