//! One pass down the lines of a capture with clocks, which finds what each step doesn't see.
//!
//! Source: Vulkan 1.3, "Execution and Memory Dependencies" and "Memory Model".
#![tactic(auto)]
