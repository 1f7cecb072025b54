//! The verdict on a capture, as its bytes come, and its text.
//!
//! Source: the format is this project's own.
#![tactic(auto)]

pub mod feed;
pub mod line_judge;
pub mod lines;
mod status;
pub mod texts;
mod top;

pub use status::JudgeStatus;
pub use top::judge;
