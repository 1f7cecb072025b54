//! Memory in captures: which writes are made available and visible to the accesses that they are ordered before, and the
//! verdict that asks for this too. Worked captures stand in `proofs/`, evaluated by the prover.
//!
//! Source: Vulkan 1.3, "Execution and Memory Dependencies" and "Memory Model".
#![tactic(auto)]

pub mod laws;
pub mod verdict;
