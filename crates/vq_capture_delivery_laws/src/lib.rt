//! Laws over the pass that finds with clocks what a step of a capture doesn't see: it finds just that.
#![tactic(auto)]
