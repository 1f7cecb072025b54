//! How long an input may be.
//!
//! Source: this project's rule.

/// The most bytes of an input.
pub const INPUT_LIMIT: usize = 4_194_304;
