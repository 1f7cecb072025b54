//! What the world of a history keeps, and how the lists of timelines follow it.
#![tactic(auto)]
