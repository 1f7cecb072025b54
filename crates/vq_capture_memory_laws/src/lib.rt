//! Laws over the verdict with memory on captures: that the search finds just what the definition says is unseen.
#![tactic(auto)]

pub mod laws;
